ghost use Rattle.std.specs.Prelude.{◌≡◌, [], ◌∷◌, ◌++◌, IfOk, IsUtf8};

use fd_kinds::{
    Bytes, Items, MatchOp, Matcher, Matchers, NoMemory, Text, is_name_byte, is_name_start,
};
use std::alloc::Global;

/// Where a reader stands behind the `{` of a selector.
#[derive(Debug, Drop)]
pub(crate) enum Stage {
    /// Behind `{` or a comma, and spaces.
    Open,
    Name(Bytes),
    /// Behind a name and spaces.
    Named(Bytes),
    /// Behind a name and `!`.
    Bang(Bytes),
    Operator(Bytes, MatchOp),
    Quoted(Bytes, MatchOp, Bytes),
    /// Behind a backslash in a quoted text.
    Escaped(Bytes, MatchOp, Bytes),
    /// Behind a matcher and spaces.
    Matched,
    /// Behind `}`.
    End,
}

/// The matchers that were read, and where the reader stands.
#[derive(Debug, Drop)]
pub(crate) struct Reader {
    pub(crate) matchers: Matchers,
    pub(crate) stage: Stage,
}

fn text_of(bytes: Bytes) -> Result<Text, NoMemory>
    requires { IsUtf8 bytes }
    ensures { IfOk result (λ text. text ≡ bytes) }
{
    Text::from_string(String::from_utf8(bytes.into_vec()).unwrap())
}

impl Reader {
    ghost use Rattle.fd_select.specs.Machine.{at, matcher, step, behind_open, behind_name, in_name, behind_bang, behind_operator, in_quoted, behind_backslash, behind_matcher, EndsText};

    fn at(matchers: Matchers, stage: Stage) -> Option<Reader>
        ensures { result ≡ at matchers stage }
    {
        Some(Reader { matchers, stage })
    }

    fn behind_open(matchers: Matchers, byte: u8) -> Result<Option<Reader>, NoMemory>
        ensures { IfOk result (λ next. next ≡ behind_open matchers byte) }
    {
        match byte {
            b' ' => Ok(Reader::at(matchers, Stage::Open)),
            b'}' => Ok(Reader::at(matchers, Stage::End)),
            _ if is_name_start(byte) => {
                let name = Bytes::from_slice(matchers.allocator(), &[byte])?;
                Ok(Reader::at(matchers, Stage::Name(name)))
            }
            _ => Ok(None),
        }
    }

    fn behind_name(matchers: Matchers, name: Bytes, byte: u8) -> Option<Reader>
        ensures { result ≡ behind_name matchers name byte }
    {
        match byte {
            b' ' => Reader::at(matchers, Stage::Named(name)),
            b'=' => Reader::at(matchers, Stage::Operator(name, MatchOp::Equal)),
            b'!' => Reader::at(matchers, Stage::Bang(name)),
            _ => None,
        }
    }

    fn in_name(matchers: Matchers, name: Bytes, byte: u8) -> Result<Option<Reader>, NoMemory>
        ensures { IfOk result (λ next. next ≡ in_name matchers name byte) }
    {
        if !is_name_byte(byte) {
            return Ok(Reader::behind_name(matchers, name, byte));
        }
        let mut name = name;
        name.push(byte)?;
        Ok(Reader::at(matchers, Stage::Name(name)))
    }

    fn behind_bang(matchers: Matchers, name: Bytes, byte: u8) -> Option<Reader>
        ensures { result ≡ behind_bang matchers name byte }
    {
        match byte {
            b'=' => Reader::at(matchers, Stage::Operator(name, MatchOp::NotEqual)),
            _ => None,
        }
    }

    fn behind_operator(matchers: Matchers, name: Bytes, op: MatchOp, byte: u8) -> Option<Reader>
        ensures { result ≡ behind_operator matchers name op byte }
    {
        match byte {
            b' ' => Reader::at(matchers, Stage::Operator(name, op)),
            b'"' => {
                let value = Items::new(name.allocator());
                Reader::at(matchers, Stage::Quoted(name, op, value))
            }
            _ => None,
        }
    }

    fn matched(
        matchers: Matchers,
        name: Bytes,
        op: MatchOp,
        value: Bytes,
    ) -> Result<Option<Reader>, NoMemory>
        requires name { IsUtf8 name }
        requires value { IsUtf8 value }
        ensures { IfOk result (λ next.
            next ≡ at (matchers ++ matcher name op value ∷ []) Stage.Matched) }
    {
        let mut matchers = matchers;
        matchers.push(Matcher {
            name: text_of(name)?,
            op,
            value: text_of(value)?,
        })?;
        Ok(Reader::at(matchers, Stage::Matched))
    }

    fn pushed(
        matchers: Matchers,
        name: Bytes,
        op: MatchOp,
        value: Bytes,
        byte: u8,
    ) -> Result<Option<Reader>, NoMemory>
        ensures { IfOk result (λ next.
            next ≡ at matchers (Stage.Quoted name op (value ++ byte ∷ []))) }
    {
        let mut value = value;
        value.push(byte)?;
        Ok(Reader::at(matchers, Stage::Quoted(name, op, value)))
    }

    fn in_quoted(
        matchers: Matchers,
        name: Bytes,
        op: MatchOp,
        value: Bytes,
        byte: u8,
    ) -> Result<Option<Reader>, NoMemory>
        requires { EndsText (Stage.Quoted name op value) byte }
        ensures { IfOk result (λ next. next ≡ in_quoted matchers name op value byte) }
    {
        match byte {
            b'"' => Reader::matched(matchers, name, op, value),
            b'\\' => Ok(Reader::at(matchers, Stage::Escaped(name, op, value))),
            _ => Reader::pushed(matchers, name, op, value, byte),
        }
    }

    fn behind_backslash(
        matchers: Matchers,
        name: Bytes,
        op: MatchOp,
        value: Bytes,
        byte: u8,
    ) -> Result<Option<Reader>, NoMemory>
        ensures { IfOk result (λ next. next ≡ behind_backslash matchers name op value byte) }
    {
        match byte {
            b'"' | b'\\' => Reader::pushed(matchers, name, op, value, byte),
            _ => Ok(None),
        }
    }

    fn behind_matcher(matchers: Matchers, byte: u8) -> Option<Reader>
        ensures { result ≡ behind_matcher matchers byte }
    {
        match byte {
            b' ' => Reader::at(matchers, Stage::Matched),
            b',' => Reader::at(matchers, Stage::Open),
            b'}' => Reader::at(matchers, Stage::End),
            _ => None,
        }
    }

    /// Where the next byte leads, or nowhere.
    pub(crate) fn step(self, byte: u8) -> Result<Option<Reader>, NoMemory>
        requires { EndsText self.stage byte }
        ensures { IfOk result (λ next. next ≡ step self byte) }
    {
        let Reader { matchers, stage } = self;
        match stage {
            Stage::Open => Reader::behind_open(matchers, byte),
            Stage::Name(name) => Reader::in_name(matchers, name, byte),
            Stage::Named(name) => Ok(Reader::behind_name(matchers, name, byte)),
            Stage::Bang(name) => Ok(Reader::behind_bang(matchers, name, byte)),
            Stage::Operator(name, op) => Ok(Reader::behind_operator(matchers, name, op, byte)),
            Stage::Quoted(name, op, value) => Reader::in_quoted(matchers, name, op, value, byte),
            Stage::Escaped(name, op, value) => Reader::behind_backslash(
                matchers, name, op, value, byte,
            ),
            Stage::Matched => Ok(Reader::behind_matcher(matchers, byte)),
            Stage::End => Ok(None),
        }
    }
}
