/// What the pages of a chunk with a dictionary are.
#[derive(Clone, Copy, Debug, PartialEq, Eq)]
pub(crate) enum PageType {
    /// The texts of a dictionary: DICTIONARY_PAGE.
    Dictionary,
    /// Indexes of its texts: a DATA_PAGE in the encoding RLE_DICTIONARY.
    Codes,
}
