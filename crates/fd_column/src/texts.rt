ghost use Rattle.std.specs.Prelude.{All, IsUtf8};
ghost use Rattle.fd_column.specs.Texts.{IsTextPair, HasTexts};

use fd_kinds::{Pair, Row, Text};

/// The bytes of a text are UTF-8.
fn text_is_utf8(text: &Text)
    ensures { IsUtf8 text.now }
{
    let _ = text.as_str();
}

/// The bytes of a name and of its value are UTF-8.
fn pair_is_utf8(pair: &Pair)
    ensures { IsTextPair pair.now }
{
    text_is_utf8(&pair.name);
    text_is_utf8(&pair.value);
}

/// The bytes of names and of their values are UTF-8.
fn pairs_are_utf8(pairs: &[Pair])
    ensures { All IsTextPair pairs.now }
{
    for pair in pairs {
        pair_is_utf8(pair);
    }
}

/// The bytes of texts are UTF-8.
pub fn texts_are_utf8(texts: &[Text])
    ensures { All IsUtf8 texts.now }
{
    for text in texts {
        text_is_utf8(text);
    }
}

/// The bytes of a row's texts are UTF-8.
pub fn row_is_utf8(row: &Row)
    ensures { HasTexts row.now }
{
    text_is_utf8(&row.name);
    text_is_utf8(&row.sample_type);
    text_is_utf8(&row.sample_unit);
    text_is_utf8(&row.period_type);
    text_is_utf8(&row.period_unit);
    pairs_are_utf8(row.labels.pairs.as_slice());
    texts_are_utf8(row.stack.as_slice());
    pairs_are_utf8(row.pprof_labels.pairs.as_slice());
}
