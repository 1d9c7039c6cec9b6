ghost use Rattle.std.specs.Prelude.{◌≡◌, ◌<◌, ◌≤◌, ◌^◌, List, ℕ, map, length, IfOk, OnOk, OnErr, Ok, Err};
ghost use Rattle.fd_pages.specs.Dictionaries.{AreRising, dictionary_body, IsDictionary};
ghost use Rattle.fd_pages.specs.Pages.{Gives, SeenGives};
ghost use Rattle.fd_codes.specs.Places.{Fronts, Adds, IsDictionaryAt, HasDictionary};

use crate::TextSlices;
use crate::header::{header, header_of};
use crate::page_type::PageType;
use crate::texts::{put_texts, texts_in};
use fd_lists::{Bytes, NoMemory};
use fd_pages::PageFault;
use std::alloc::Global;

/// The page of a dictionary of these texts.
fn dictionary(alloc: Global, texts: &[&[u8]]) -> Result<Bytes, NoMemory>
    requires rising { AreRising (map (λ t. t.now) texts.now) }
    requires small { length (dictionary_body (map (λ t. t.now) texts.now)) < 2 ^ 31 }
    ensures { IfOk result (IsDictionary (map (λ t. t.now) texts.now)) }
{
    let mut body = Bytes::new(alloc);
    put_texts(&mut body, texts)?;
    let mut page = header(alloc, PageType::Dictionary, texts.len(), body.len())?;
    page.extend(body.as_slice())?;
    Ok(page)
}

/// Adds the page of a dictionary of these texts (Apache Parquet, `README.md`, "Data Pages"), each
/// above the one before by its bytes. Where memory is wanting, `out` stays as it was.
pub fn write_dictionary(texts: &[&[u8]], out: &mut Bytes) -> Result<(), NoMemory>
    requires rising { AreRising (map (λ t. t.now) texts.now) }
    requires small { length (dictionary_body (map (λ t. t.now) texts.now)) < 2 ^ 31 }
    ensures ok { OnOk result
        (Adds (IsDictionary (map (λ t. t.now) texts.now)) out.old out.new) }
    ensures err { OnErr result (out.new ≡ out.old) }
{
    let page = dictionary(out.allocator(), texts)?;
    out.extend(page.as_slice())
}

/// The texts of the dictionary whose page stands in front of the bytes, and the bytes behind it.
fn first_dictionary<'a>(
    alloc: Global,
    bytes: &'a [u8],
) -> Result<(TextSlices<'a>, &'a [u8]), PageFault>
    ensures found { IfOk result
        (λ r. Fronts (IsDictionary (map (λ t. t.now) r.0)) bytes.now r.1.now) }
    ensures only { (texts : List (List ℕ)) (rest : List ℕ)
        → Fronts (IsDictionary texts) bytes.now rest
        → SeenGives {Y = List (List ℕ) × List ℕ} (λ r. (map (λ t. t.now) r.0, r.1.now)) result
        (Ok (texts, rest)) }
{
    let ((count, size), rest) = header_of(alloc, PageType::Dictionary, bytes)?;
    if rest.len() < size {
        return Err(PageFault::BadPage);
    }
    let (body, rest) = rest.split_at(size);
    let texts = texts_in(alloc, count, body)?;
    Ok((texts, rest))
}

/// Reads the page of a dictionary that stands at the place `at`, and the place behind it, as
/// `write_dictionary` writes it (Apache Parquet, `README.md`, "Data Pages"). Other bytes may follow
/// there. The texts are slices of the bytes. Places count bytes. No count or length that the bytes
/// claim makes it take memory.
pub fn read_dictionary<'a>(
    alloc: Global,
    bytes: &'a [u8],
    at: usize,
) -> Result<(TextSlices<'a>, usize), PageFault>
    requires { at ≤ length bytes.now }
    // What is read is spelled so.
    ensures found { IfOk result
        (λ r. IsDictionaryAt bytes.now at (map (λ t. t.now) r.0) r.1) }
    // What is spelled so is read, unless memory runs out.
    ensures only { (texts : List (List ℕ)) (end : ℕ) → IsDictionaryAt bytes.now at texts end
        → SeenGives {Y = List (List ℕ) × ℕ} (λ r. (map (λ t. t.now) r.0, r.1)) result
        (Ok (texts, end)) }
    // A page is bad exactly where there is none.
    ensures bad { result ≡ Err PageFault.BadPage → ¬ HasDictionary bytes.now at }
    ensures bad_only { (¬ HasDictionary bytes.now at) → Gives result (Err PageFault.BadPage) }
{
    let (texts, rest) = first_dictionary(alloc, &bytes[at..])?;
    Ok((texts, bytes.len() - rest.len()))
}
