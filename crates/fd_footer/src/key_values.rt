ghost use Rattle.std.specs.Prelude.{◌≡◌, true, map};
ghost use Rattle.std.specs.List.{list_all};
ghost use Rattle.std.specs.Char.{is_ascii_digit};
ghost use Rattle.fd_thrift.specs.View.{view};
ghost use Rattle.fd_footer.specs.Contents.{is_decimal as is_decimal_text, number_in, is_pages as is_pages_name, pages_in, is_number_entry as is_number_entry_value, is_pages_entry as is_pages_entry_value, entries_of};

use crate::Pages;
use crate::field_ids::{PAIR_KEY, PAIR_VALUE};
use crate::lookup::text;
use fd_thrift::Tree;

/// The key-value entries of a footer. A number is none where it is 2^64 or more.
#[derive(Clone, Copy, Debug, PartialEq, Eq)]
pub(crate) struct KeyValueMetadata {
    pub(crate) hi: Option<u64>,
    pub(crate) lo: Option<u64>,
    pub(crate) pages: Pages,
}

/// Whether all bytes are digits.
fn are_digits(bytes: &[u8]) -> bool
    ensures { result ≡ list_all is_ascii_digit bytes.now }
{
    bytes.iter().all(|byte| byte.is_ascii_digit())
}

/// Whether a text is digits without a leading zero.
fn is_decimal(digits: &[u8]) -> bool
    ensures { result ≡ is_decimal_text digits.now }
{
    let Some((first, others)) = digits.split_first() else {
        return false;
    };
    first.is_ascii_digit() && are_digits(others) && (others.is_empty() || *first != b'0')
}

/// The number that digits write, where it is below 2^64.
fn decimal_value(digits: &[u8]) -> Option<u64>
    requires { list_all is_ascii_digit digits.now ≡ true }
    ensures { result ≡ number_in digits.now }
{
    let mut number = 0u64;
    for digit in digits {
        let units = u64::from(*digit - b'0');
        if number > (u64::MAX - units) / 10 {
            return None;
        }
        number = number * 10 + units;
    }
    Some(number)
}

/// Whether a text is the name of a kind of pages.
fn is_pages(name: &[u8]) -> bool
    ensures { result ≡ is_pages_name name.now }
{
    name == b"plain".as_slice() || name == b"dict".as_slice()
}

/// The kind of pages of this name.
fn pages_of(name: &[u8]) -> Pages
    ensures { result ≡ pages_in name.now }
{
    if name == b"plain".as_slice() {
        Pages::Plain
    } else {
        Pages::Dict
    }
}

/// Whether an entry has this key and a number.
fn is_number_entry(entry: &Tree, key: &[u8]) -> bool
    ensures { result ≡ is_number_entry_value key.now (view entry.now) }
{
    text(entry, PAIR_KEY) == key && is_decimal(text(entry, PAIR_VALUE))
}

/// Whether an entry tells the kind of the pages.
fn is_pages_entry(entry: &Tree) -> bool
    ensures { result ≡ is_pages_entry_value (view entry.now) }
{
    text(entry, PAIR_KEY) == b"pages".as_slice() && is_pages(text(entry, PAIR_VALUE))
}

/// What the entries tell, where they are `hi`, `lo` and `pages`.
pub(crate) fn read_entries(trees: &[Tree]) -> Option<KeyValueMetadata>
    ensures { result ≡ entries_of (map view trees.now) }
{
    let [hi, lo, pages] = trees else {
        return None;
    };
    if !is_number_entry(hi, b"hi") || !is_number_entry(lo, b"lo") || !is_pages_entry(pages) {
        return None;
    }
    Some(KeyValueMetadata {
        hi: decimal_value(text(hi, PAIR_VALUE)),
        lo: decimal_value(text(lo, PAIR_VALUE)),
        pages: pages_of(text(pages, PAIR_VALUE)),
    })
}
