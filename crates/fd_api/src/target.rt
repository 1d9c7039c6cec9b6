ghost use Rattle.std.specs.Prelude.{◌≡◌, IfOk, map};
ghost use Rattle.std.specs.Option.{option_copied, option_map};
ghost use Rattle.form_urlencoded.specs.Form.{raw_pairs};
ghost use Rattle.fd_api.specs.Targets.{path_of, query_of, decoded, last_value};

use fd_kinds::{Items, NoMemory, Pair, Pairs, Text};
use std::alloc::Global;

/// The path of a target, and the text of its parameters.
pub(crate) fn split_target(target: &str) -> (&str, &str)
    ensures path { result.0.now ≡ path_of target.now }
    ensures query { result.1.now ≡ query_of target.now }
{
    match target.split_once('?') {
        Some((path, query)) => (path, query),
        None => (target, ""),
    }
}

/// The parameters, decoded, in order.
pub(crate) fn parameters(alloc: Global, query: &str) -> Result<Pairs, NoMemory>
    ensures { IfOk result (λ pairs. pairs ≡ map decoded (raw_pairs query.now)) }
{
    let mut pairs = Items::new(alloc);
    for pair in form_urlencoded::parse(alloc, query.as_bytes()) {
        let (name, value) = pair?;
        pairs.push(Pair {
            name: Text::of(alloc, &name)?,
            value: Text::of(alloc, &value)?,
        })?;
    }
    Ok(pairs)
}

/// The value of the last parameter of a name.
pub(crate) fn last_value<'a>(parameters: &'a [Pair], name: &str) -> Option<&'a Text>
    ensures { option_copied result ≡ last_value name.now parameters.now }
{
    parameters
        .iter()
        .rev()
        .find(|pair| pair.name.as_str() == name)
        .map(|pair| &pair.value)
}
