ghost use Rattle.std.specs.Prelude.{◌≡◌, ◌++◌, ◌<◌, ◌≤◌, ◌^◌, ℕ, pos, List, length, IfOk, Ok, Some, IfSome};
ghost use Rattle.std.specs.Option.{option_map};
ghost use Rattle.fd_thrift.specs.View.{view, fields_view};
ghost use Rattle.fd_thrift.specs.Values.{Value, Fields, whole32, struct};
ghost use Rattle.fd_pages.specs.Pages.{page_header_in, data_page_header_in, Gives, SeenGives};
ghost use Rattle.fd_pages.specs.Dictionaries.{dictionary_page_header, dictionary_header};
ghost use Rattle.fd_pages.specs.Reader.{fault_of};
ghost use Rattle.fd_codes.specs.Headers.{header_value, header_text};
ghost use Rattle.fd_codes.specs.Trees.{value_in};

use crate::page_type::PageType;
use fd_lists::{Bytes, NoMemory};
use fd_pages::PageFault;
use fd_thrift::{ThriftFault, Tree, TreeField, read, write};
use std::alloc::Global;

/// The page type DATA_PAGE.
const DATA_PAGE: i32 = 0;

/// The page type DICTIONARY_PAGE.
const DICTIONARY_PAGE: i32 = 2;

/// The encoding PLAIN.
const PLAIN: i32 = 0;

/// The encoding RLE, which names the hybrid runs.
const RLE: i32 = 3;

/// The encoding RLE_DICTIONARY.
const RLE_DICTIONARY: i32 = 8;

/// The DictionaryPageHeader of a dictionary of so many texts.
fn dictionary_page_tree(alloc: Global, count: usize) -> Result<Tree, NoMemory>
    requires { count < 2 ^ 31 }
    ensures { IfOk result (λ tree. view tree ≡ dictionary_page_header count) }
{
    let values = TreeField {
        id: 1,
        tree: Tree::Whole32(count as i32),
    };
    let encoding = TreeField {
        id: 2,
        tree: Tree::Whole32(PLAIN),
    };
    Ok(Tree::Struct(vec![in alloc; values, encoding]?))
}

/// The DataPageHeader of a page with so many indexes, absent cells counted.
fn data_page_tree(alloc: Global, count: usize) -> Result<Tree, NoMemory>
    requires { count < 2 ^ 31 }
    ensures { IfOk result (λ tree. view tree ≡ data_page_header_in 8 count) }
{
    let values = TreeField {
        id: 1,
        tree: Tree::Whole32(count as i32),
    };
    let encoding = TreeField {
        id: 2,
        tree: Tree::Whole32(RLE_DICTIONARY),
    };
    let definition_levels = TreeField {
        id: 3,
        tree: Tree::Whole32(RLE),
    };
    let repetition_levels = TreeField {
        id: 4,
        tree: Tree::Whole32(RLE),
    };
    Ok(Tree::Struct(vec![in alloc; values, encoding, definition_levels, repetition_levels]?))
}

/// The PageHeader of a dictionary of so many texts with so many bytes in its body.
fn dictionary_tree(alloc: Global, count: usize, size: usize) -> Result<Tree, NoMemory>
    requires counted { count < 2 ^ 31 }
    requires small { size < 2 ^ 31 }
    ensures { IfOk result (λ tree. view tree ≡ dictionary_header count size) }
{
    let kind = TreeField {
        id: 1,
        tree: Tree::Whole32(DICTIONARY_PAGE),
    };
    let uncompressed = TreeField {
        id: 2,
        tree: Tree::Whole32(size as i32),
    };
    let compressed = TreeField {
        id: 3,
        tree: Tree::Whole32(size as i32),
    };
    let dictionary_page = TreeField {
        id: 7,
        tree: dictionary_page_tree(alloc, count)?,
    };
    Ok(Tree::Struct(vec![in alloc; kind, uncompressed, compressed, dictionary_page]?))
}

/// The PageHeader of a page with so many indexes and so many bytes in its body.
fn codes_tree(alloc: Global, count: usize, size: usize) -> Result<Tree, NoMemory>
    requires counted { count < 2 ^ 31 }
    requires small { size < 2 ^ 31 }
    ensures { IfOk result (λ tree. view tree ≡ page_header_in 8 count size) }
{
    let kind = TreeField {
        id: 1,
        tree: Tree::Whole32(DATA_PAGE),
    };
    let uncompressed = TreeField {
        id: 2,
        tree: Tree::Whole32(size as i32),
    };
    let compressed = TreeField {
        id: 3,
        tree: Tree::Whole32(size as i32),
    };
    let data_page = TreeField {
        id: 5,
        tree: data_page_tree(alloc, count)?,
    };
    Ok(Tree::Struct(vec![in alloc; kind, uncompressed, compressed, data_page]?))
}

/// The PageHeader of a page with so many values and so many bytes in its body.
fn header_tree(alloc: Global, kind: PageType, count: usize, size: usize) -> Result<Tree, NoMemory>
    requires counted { count < 2 ^ 31 }
    requires small { size < 2 ^ 31 }
    ensures { IfOk result (λ tree. view tree ≡ header_value kind count size) }
{
    match kind {
        PageType::Dictionary => dictionary_tree(alloc, count, size),
        PageType::Codes => codes_tree(alloc, count, size),
    }
}

/// The header's bytes.
#[tactic(auto, unfolding(crate::specs::Headers::header_text))]
pub(crate) fn header(
    alloc: Global,
    kind: PageType,
    count: usize,
    size: usize,
) -> Result<Bytes, NoMemory>
    requires counted { count < 2 ^ 31 }
    requires small { size < 2 ^ 31 }
    ensures { IfOk result (λ bytes. bytes ≡ header_text kind count size) }
{
    let tree = header_tree(alloc, kind, count, size)?;
    match write(alloc, &tree) {
        Ok(bytes) => Ok(Bytes::from_vec(bytes.into_vec())),
        Err(_) => Err(NoMemory),
    }
}

/// The number that a tree is, if it is one of 32 bits without a sign.
fn whole_of(tree: &Tree) -> Option<usize>
    ensures value { (number : ℕ) → view tree.now ≡ whole32 (pos number) → result ≡ Some number }
    ensures small { IfSome result (λ number. number < 2 ^ 31) }
{
    match tree {
        Tree::Whole32(number) if *number >= 0 => Some(*number as usize),
        _ => None,
    }
}

/// The number that the first field is.
fn first_in(fields: &[TreeField]) -> Option<usize>
    ensures value { (number : ℕ) → value_in (fields_view fields.now) 0 ≡ Some (whole32 (pos number))
        → result ≡ Some number }
    ensures small { IfSome result (λ number. number < 2 ^ 31) }
{
    match fields.get(0) {
        Some(field) => whole_of(&field.tree),
        None => None,
    }
}

/// The number that the second field is.
fn second_in(fields: &[TreeField]) -> Option<usize>
    ensures value { (number : ℕ) → value_in (fields_view fields.now) 1 ≡ Some (whole32 (pos number))
        → result ≡ Some number }
    ensures small { IfSome result (λ number. number < 2 ^ 31) }
{
    match fields.get(1) {
        Some(field) => whole_of(&field.tree),
        None => None,
    }
}

/// The number that the first field of a struct is.
fn first_number(tree: &Tree) -> Option<usize>
    ensures value { (number : ℕ) (fields : Fields) → view tree.now ≡ struct fields
        → value_in fields 0 ≡ Some (whole32 (pos number)) → result ≡ Some number }
    ensures small { IfSome result (λ number. number < 2 ^ 31) }
{
    match tree {
        Tree::Struct(fields) => first_in(fields),
        _ => None,
    }
}

/// The count of values that the fields of a PageHeader tell: the first field of the fourth.
fn count_in(fields: &[TreeField]) -> Option<usize>
    ensures value { (number : ℕ) (inner : Fields)
        → value_in (fields_view fields.now) 3 ≡ Some (struct inner)
        → value_in inner 0 ≡ Some (whole32 (pos number)) → result ≡ Some number }
    ensures small { IfSome result (λ number. number < 2 ^ 31) }
{
    match fields.get(3) {
        Some(field) => first_number(&field.tree),
        None => None,
    }
}

/// The count, and the size of the body that the fields of a PageHeader tell: the second of them.
fn with_size(count: usize, fields: &[TreeField]) -> Option<(usize, usize)>
    requires { count < 2 ^ 31 }
    ensures value { (size : ℕ) → value_in (fields_view fields.now) 1 ≡ Some (whole32 (pos size))
        → result ≡ Some (count, size) }
    ensures small { IfSome result (λ sizes. (sizes.0 < 2 ^ 31) × (sizes.1 < 2 ^ 31)) }
{
    match second_in(fields) {
        Some(size) => Some((count, size)),
        None => None,
    }
}

/// The count of values and the size of the body that the fields of a PageHeader tell.
fn sizes_in(fields: &[TreeField]) -> Option<(usize, usize)>
    ensures value { (kind : PageType) (count size : ℕ)
        → struct (fields_view fields.now) ≡ header_value kind count size
        → result ≡ Some (count, size) }
    ensures small { IfSome result (λ sizes. (sizes.0 < 2 ^ 31) × (sizes.1 < 2 ^ 31)) }
{
    match count_in(fields) {
        Some(count) => with_size(count, fields),
        None => None,
    }
}

/// The count of values and the size of the body that a PageHeader tells.
fn sizes_of(tree: &Tree) -> Option<(usize, usize)>
    ensures value { (kind : PageType) (count size : ℕ)
        → view tree.now ≡ header_value kind count size → result ≡ Some (count, size) }
    ensures small { IfSome result (λ sizes. (sizes.0 < 2 ^ 31) × (sizes.1 < 2 ^ 31)) }
{
    match tree {
        Tree::Struct(fields) => sizes_in(fields),
        _ => None,
    }
}

/// What a fault of the header is for the page.
fn page_fault(fault: ThriftFault) -> PageFault
    ensures { result ≡ fault_of fault }
{
    match fault {
        ThriftFault::NoMemory => PageFault::NoMemory,
        _ => PageFault::BadPage,
    }
}

/// The tree in front of the bytes, and how many bytes it takes.
fn tree_in(alloc: Global, bytes: &[u8]) -> Result<(Tree, usize), PageFault>
    ensures within { IfOk result (λ r. r.1 ≤ length bytes.now) }
    ensures only { (kind : PageType) (count size : ℕ) (rest : List ℕ)
        → count < 2 ^ 31 → size < 2 ^ 31
        → bytes.now ≡ header_text kind count size ++ rest
        → SeenGives {Y = Value × ℕ} (λ r. (view r.0, r.1)) result
        (Ok (header_value kind count size, length (header_text kind count size))) }
{
    match read(alloc, bytes, 0, bytes.len()) {
        Ok(found) => Ok(found),
        Err(fault) => Err(page_fault(fault)),
    }
}

/// The count of values and the size of the body that the PageHeader in front of the bytes tells,
/// and how many bytes the header takes.
fn sizes_at(alloc: Global, bytes: &[u8]) -> Result<((usize, usize), usize), PageFault>
    ensures small { IfOk result (λ r. (r.0.0 < 2 ^ 31) × (r.0.1 < 2 ^ 31)) }
    ensures within { IfOk result (λ r. r.1 ≤ length bytes.now) }
    ensures only { (kind : PageType) (count size : ℕ) (rest : List ℕ)
        → count < 2 ^ 31 → size < 2 ^ 31
        → bytes.now ≡ header_text kind count size ++ rest
        → Gives result (Ok ((count, size), length (header_text kind count size))) }
{
    let (tree, end) = tree_in(alloc, bytes)?;
    match sizes_of(&tree) {
        Some(sizes) => Ok((sizes, end)),
        None => Err(PageFault::BadPage),
    }
}

/// The count of values and the size of the body that the header of a page of this type tells, and
/// the bytes behind the header.
pub(crate) fn header_of(
    alloc: Global,
    kind: PageType,
    bytes: &[u8],
) -> Result<((usize, usize), &[u8]), PageFault>
    ensures found { IfOk result (λ r. bytes.now ≡ header_text kind r.0.0 r.0.1 ++ r.1.now) }
    ensures small { IfOk result (λ r. (r.0.0 < 2 ^ 31) × (r.0.1 < 2 ^ 31)) }
    ensures only { (count size : ℕ) (rest : List ℕ) → count < 2 ^ 31 → size < 2 ^ 31
        → bytes.now ≡ header_text kind count size ++ rest
        → SeenGives {Y = (ℕ × ℕ) × List ℕ} (λ r. (r.0, r.1.now)) result
        (Ok ((count, size), rest)) }
{
    let (sizes, end) = sizes_at(alloc, bytes)?;
    let expected = header(alloc, kind, sizes.0, sizes.1)?;
    let (front, rest) = bytes.split_at(end);
    if front != expected.as_slice() {
        return Err(PageFault::BadPage);
    }
    Ok((sizes, rest))
}
