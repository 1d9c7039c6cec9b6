ghost use Rattle.std.specs.Prelude.{◌≡◌, ◌++◌, ◌<◌, ◌≤◌, ◌^◌, ℕ, pos, List, length, IfOk, Ok, Some, IfSome};
ghost use Rattle.fd_thrift.specs.View.{view, fields_view};
ghost use Rattle.fd_thrift.specs.Values.{Value, whole32, struct};
ghost use Rattle.fd_pages.specs.Pages.{page_header, data_page_header, header_bytes, Gives, SeenGives};
ghost use Rattle.fd_pages.specs.Reader.{fault_of};

use crate::PageFault;
use fd_lists::{Bytes, NoMemory};
use fd_thrift::{ThriftFault, Tree, TreeField, read, write};
use std::alloc::Global;

/// The page type DATA_PAGE.
const DATA_PAGE: i32 = 0;

/// The encoding PLAIN.
const PLAIN: i32 = 0;

/// The encoding RLE, which names the hybrid runs.
const RLE: i32 = 3;

/// The DataPageHeader of a page with so many values, absent ones counted.
fn data_page_tree(alloc: Global, count: usize) -> Result<Tree, NoMemory>
    requires { count < 2 ^ 31 }
    ensures { IfOk result (λ tree. view tree ≡ data_page_header count) }
{
    let values = TreeField {
        id: 1,
        tree: Tree::Whole32(count as i32),
    };
    let encoding = TreeField {
        id: 2,
        tree: Tree::Whole32(PLAIN),
    };
    let definition_levels = TreeField {
        id: 3,
        tree: Tree::Whole32(RLE),
    };
    let repetition_levels = TreeField {
        id: 4,
        tree: Tree::Whole32(RLE),
    };
    Ok(Tree::Struct(vec![in alloc; values, encoding, definition_levels, repetition_levels]?))
}

/// The PageHeader of a page with so many values and so many bytes in its body.
fn header_tree(alloc: Global, count: usize, size: usize) -> Result<Tree, NoMemory>
    requires counted { count < 2 ^ 31 }
    requires small { size < 2 ^ 31 }
    ensures { IfOk result (λ tree. view tree ≡ page_header count size) }
{
    let kind = TreeField {
        id: 1,
        tree: Tree::Whole32(DATA_PAGE),
    };
    let uncompressed = TreeField {
        id: 2,
        tree: Tree::Whole32(size as i32),
    };
    let compressed = TreeField {
        id: 3,
        tree: Tree::Whole32(size as i32),
    };
    let data_page = TreeField {
        id: 5,
        tree: data_page_tree(alloc, count)?,
    };
    Ok(Tree::Struct(vec![in alloc; kind, uncompressed, compressed, data_page]?))
}

/// The header's bytes.
#[tactic(auto, unfolding(crate::specs::Pages::header_bytes))]
pub(crate) fn header(alloc: Global, count: usize, size: usize) -> Result<Bytes, NoMemory>
    requires counted { count < 2 ^ 31 }
    requires small { size < 2 ^ 31 }
    ensures { IfOk result (λ bytes. bytes ≡ header_bytes count size) }
{
    let tree = header_tree(alloc, count, size)?;
    match write(alloc, &tree) {
        Ok(bytes) => Ok(Bytes::from_vec(bytes.into_vec())),
        Err(_) => Err(NoMemory),
    }
}

/// The number that a tree is, if it is one of 32 bits without a sign.
fn whole_of(tree: &Tree) -> Option<usize>
    ensures value { (number : ℕ) → view tree.now ≡ whole32 (pos number) → result ≡ Some number }
    ensures small { IfSome result (λ number. number < 2 ^ 31) }
{
    match tree {
        Tree::Whole32(number) if *number >= 0 => Some(*number as usize),
        _ => None,
    }
}

/// The size of the body that the fields of a PageHeader tell: the second of them.
fn second_size(fields: &[TreeField]) -> Option<usize>
    ensures value { (count size : ℕ) → struct (fields_view fields.now) ≡ page_header count size
        → result ≡ Some size }
    ensures small { IfSome result (λ size. size < 2 ^ 31) }
{
    match fields.get(1) {
        Some(field) => whole_of(&field.tree),
        None => None,
    }
}

/// The size of the body that a PageHeader tells.
fn told_size(tree: &Tree) -> Option<usize>
    ensures value { (count size : ℕ) → view tree.now ≡ page_header count size → result ≡ Some size }
    ensures small { IfSome result (λ size. size < 2 ^ 31) }
{
    match tree {
        Tree::Struct(fields) => second_size(fields),
        _ => None,
    }
}

/// What a fault of the header is for the page.
fn page_fault(fault: ThriftFault) -> PageFault
    ensures { result ≡ fault_of fault }
{
    match fault {
        ThriftFault::NoMemory => PageFault::NoMemory,
        _ => PageFault::BadPage,
    }
}

/// The tree in front of the bytes, and how many bytes it takes.
fn tree_in(alloc: Global, bytes: &[u8]) -> Result<(Tree, usize), PageFault>
    ensures within { IfOk result (λ r. r.1 ≤ length bytes.now) }
    ensures only { (count size : ℕ) (rest : List ℕ) → count < 2 ^ 31 → size < 2 ^ 31
        → bytes.now ≡ header_bytes count size ++ rest
        → SeenGives {Y = Value × ℕ}
        (λ r. (view r.0, r.1)) result
        (Ok (page_header count size, length (header_bytes count size))) }
{
    match read(alloc, bytes, 0, bytes.len()) {
        Ok(found) => Ok(found),
        Err(fault) => Err(page_fault(fault)),
    }
}

/// The size of the body that the PageHeader in front of the bytes tells, and how many bytes the
/// header takes.
fn size_in(alloc: Global, bytes: &[u8]) -> Result<(usize, usize), PageFault>
    ensures small { IfOk result (λ r. r.0 < 2 ^ 31) }
    ensures within { IfOk result (λ r. r.1 ≤ length bytes.now) }
    ensures only { (count size : ℕ) (rest : List ℕ) → count < 2 ^ 31 → size < 2 ^ 31
        → bytes.now ≡ header_bytes count size ++ rest
        → Gives result (Ok (size, length (header_bytes count size))) }
{
    let (tree, end) = tree_in(alloc, bytes)?;
    match told_size(&tree) {
        Some(size) => Ok((size, end)),
        None => Err(PageFault::BadPage),
    }
}

/// The size of the body that the header of a page of `count` cells tells, and the bytes behind the
/// header.
pub(crate) fn header_of(
    alloc: Global,
    bytes: &[u8],
    count: usize,
) -> Result<(usize, &[u8]), PageFault>
    requires { count < 2 ^ 31 }
    ensures found { IfOk result (λ r. bytes.now ≡ header_bytes count r.0 ++ r.1.now) }
    ensures small { IfOk result (λ r. r.0 < 2 ^ 31) }
    ensures only { (size : ℕ) (rest : List ℕ) → size < 2 ^ 31
        → bytes.now ≡ header_bytes count size ++ rest
        → SeenGives {Y = ℕ × List ℕ} (λ r. (r.0, r.1.now)) result (Ok (size, rest)) }
{
    let (size, end) = size_in(alloc, bytes)?;
    let expected = header(alloc, count, size)?;
    let (front, rest) = bytes.split_at(end);
    if front != expected.as_slice() {
        return Err(PageFault::BadPage);
    }
    Ok((size, rest))
}
