ghost use Rattle.std.specs.Prelude.{◌≡◌, OnOk, ◌∷◌, []};
ghost use Rattle.serde_json.specs.Data.{Data, string, boolean as boolean_data, object, member as member_of, no_members};
ghost use Rattle.json.specs.Token.{key as key_token, begin_object, end_object, begin_array, end_array, boolean as boolean_token};
ghost use Rattle.fd_json.specs.Answers.{list_json, pair_json, labels_json, signed_json, number_json};
ghost use Rattle.fd_json.specs.Tokens.{Adds, tokens_of};

use fd_kinds::{Items, Labels, NoMemory, Pair, Shared, Text};
use itoa::Buffer;
use json::Writer;

/// What stands for a JSON value. It is written a token at a time, so no tree of it is built.
pub(crate) trait WritesJson {
    ghost json: { Self → Data };

    fn write(&self, out: &mut Writer) -> Result<(), NoMemory>
        ensures { OnOk result (Adds out.old out.new (tokens_of (json self.now))) };
}

pub(crate) fn begin_object(out: &mut Writer) -> Result<(), NoMemory>
    ensures { OnOk result (Adds out.old out.new (begin_object ∷ [])) }
{
    Ok(out.begin_object()?)
}

pub(crate) fn end_object(out: &mut Writer) -> Result<(), NoMemory>
    ensures { OnOk result (Adds out.old out.new (end_object ∷ [])) }
{
    Ok(out.end_object()?)
}

fn begin_array(out: &mut Writer) -> Result<(), NoMemory>
    ensures { OnOk result (Adds out.old out.new (begin_array ∷ [])) }
{
    Ok(out.begin_array()?)
}

fn end_array(out: &mut Writer) -> Result<(), NoMemory>
    ensures { OnOk result (Adds out.old out.new (end_array ∷ [])) }
{
    Ok(out.end_array()?)
}

fn key(out: &mut Writer, name: &str) -> Result<(), NoMemory>
    ensures { OnOk result (Adds out.old out.new (key_token name.now ∷ [])) }
{
    Ok(out.key(name)?)
}

fn text(out: &mut Writer, text: &str) -> Result<(), NoMemory>
    ensures { OnOk result (Adds out.old out.new (tokens_of (string text.now))) }
{
    Ok(out.string(text)?)
}

impl WritesJson for bool {
    ghost json = { boolean_data };

    fn write(&self, out: &mut Writer) -> Result<(), NoMemory> {
        Ok(out.boolean(*self)?)
    }
}

impl WritesJson for u64 {
    ghost json = { number_json };

    fn write(&self, out: &mut Writer) -> Result<(), NoMemory> {
        Ok(out.quoted_u64(*self)?)
    }
}

impl WritesJson for i64 {
    ghost json = { signed_json };

    fn write(&self, out: &mut Writer) -> Result<(), NoMemory> {
        Ok(out.quoted_i64(*self)?)
    }
}

impl WritesJson for i128 {
    ghost json = { signed_json };

    fn write(&self, out: &mut Writer) -> Result<(), NoMemory> {
        let mut buffer = Buffer::new();
        text(out, buffer.format(*self))
    }
}

impl WritesJson for Text {
    ghost json = { string };

    fn write(&self, out: &mut Writer) -> Result<(), NoMemory> {
        text(out, self.as_str())
    }
}

/// Writes an array of the items.
#[tactic(auto, using(crate::proofs::TokenSteps::list_steps))]
fn write_list<T: WritesJson>(out: &mut Writer, items: &[T]) -> Result<(), NoMemory>
    ensures { OnOk result (Adds out.old out.new (tokens_of (list_json T.json items.now))) }
{
    begin_array(out)?;
    for item in items {
        item.write(out)?;
    }
    end_array(out)
}

impl<T: WritesJson> WritesJson for Items<T> {
    ghost json = { list_json T.json };

    fn write(&self, out: &mut Writer) -> Result<(), NoMemory> {
        write_list(out, self.as_slice())
    }
}

impl<T: WritesJson> WritesJson for Shared<T> {
    ghost json = { list_json T.json };

    fn write(&self, out: &mut Writer) -> Result<(), NoMemory> {
        write_list(out, self.as_slice())
    }
}

/// Writes a member of an object.
pub(crate) fn member<T: WritesJson>(out: &mut Writer, name: &str, value: &T) -> Result<(), NoMemory>
    ensures { OnOk result (Adds out.old out.new
        (key_token name.now ∷ tokens_of (T.json value.now))) }
{
    key(out, name)?;
    value.write(out)
}

/// Writes a member whose value is a text.
pub(crate) fn text_member(out: &mut Writer, name: &str, value: &str) -> Result<(), NoMemory>
    ensures { OnOk result (Adds out.old out.new
        (key_token name.now ∷ tokens_of (string value.now))) }
{
    key(out, name)?;
    text(out, value)
}

/// Writes an object of one member.
#[tactic(auto, using(crate::proofs::TokenSteps::adds_then))]
pub(crate) fn one_member<T: WritesJson>(
    out: &mut Writer,
    name: &str,
    value: &T,
) -> Result<(), NoMemory>
    ensures { OnOk result (Adds out.old out.new
        (tokens_of (object (member_of name.now (T.json value.now) no_members)))) }
{
    begin_object(out)?;
    member(out, name, value)?;
    end_object(out)
}

/// Writes an object of two members, whose names rise in byte order.
pub(crate) fn two_members<A: WritesJson, B: WritesJson>(
    out: &mut Writer,
    first_name: &str,
    first: &A,
    second_name: &str,
    second: &B,
) -> Result<(), NoMemory>
    ensures { OnOk result (Adds out.old out.new
        (tokens_of (object (member_of first_name.now (A.json first.now)
        (member_of second_name.now (B.json second.now) no_members))))) }
{
    begin_object(out)?;
    member(out, first_name, first)?;
    member(out, second_name, second)?;
    end_object(out)
}

impl WritesJson for Pair {
    ghost json = { pair_json };

    fn write(&self, out: &mut Writer) -> Result<(), NoMemory> {
        two_members(out, "name", &self.name, "value", &self.value)
    }
}

impl WritesJson for Labels {
    ghost json = { labels_json };

    fn write(&self, out: &mut Writer) -> Result<(), NoMemory> {
        one_member(out, "labels", &self.pairs)
    }
}
