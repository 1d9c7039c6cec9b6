use fd_kinds::{MatchOp, Matcher, NoMemory, Selector};
use fd_select::{MomentFault, SelectFault, moment, selector};
use std::alloc::Global;
use std::test::Fail;

/// The type with this text behind it.
fn typed(alloc: Global, behind: &str) -> Result<String, NoMemory> {
    let mut text = String::new(alloc);
    text.push_str("process_cpu:cpu:nanoseconds:cpu:nanoseconds")?;
    text.push_str(behind)?;
    Ok(text)
}

fn is_matcher(matcher: &Matcher, name: &str, op: MatchOp, value: &str) -> bool {
    matcher.name.as_str() == name && matcher.op == op && matcher.value.as_str() == value
}

fn are_matchers(matchers: &[Matcher]) -> bool {
    match matchers {
        [job, env] => {
            is_matcher(job, "job", MatchOp::Equal, r#"a"\b"#)
                && is_matcher(env, "env", MatchOp::NotEqual, "")
        }
        _ => false,
    }
}

fn is_selector(selector: &Selector) -> bool {
    selector.kind.name.as_str() == "process_cpu"
        && selector.kind.period_unit.as_str() == "nanoseconds"
        && selector.kind.delta
        && are_matchers(selector.matchers.as_slice())
}

/// Whether the text behind the type gives the selector with both matchers.
fn is_read(alloc: Global, behind: &str) -> Result<bool, NoMemory> {
    let text = typed(alloc, behind)?;
    Ok(match selector(alloc, text.as_str()) {
        Ok(selector) => is_selector(&selector),
        Err(_) => false,
    })
}

#[test]
fn a_selector_has_a_type_and_matchers(rt: HostRuntime) -> Result<(), Fail> {
    assert!(rt; is_read(rt.alloc(), r#":delta{ job = "a\"\\b" , env!="",}"#)?);
    Ok(())
}

/// The refusal of the type with this text behind it.
fn refusal(alloc: Global, behind: &str) -> Result<Option<SelectFault>, NoMemory> {
    let text = typed(alloc, behind)?;
    Ok(selector(alloc, text.as_str()).err())
}

const READ: [&str; 7] = [
    "",
    "{}",
    "{ }",
    "{job=\"api\"}",
    "{env=\"\"}",
    "{job!=\"web\",}",
    "{a=\"é\"}",
];

const REFUSED: [(&str, SelectFault); 10] = [
    (":", SelectFault::BadType),
    (":deltas{}", SelectFault::BadType),
    ("{job=api}", SelectFault::BadMatcher { at: 48 }),
    ("{,}", SelectFault::BadMatcher { at: 44 }),
    ("{1a=\"x\"}", SelectFault::BadMatcher { at: 44 }),
    ("{a=\"\\n\"}", SelectFault::BadMatcher { at: 48 }),
    ("{a=\"b\",,}", SelectFault::BadMatcher { at: 50 }),
    ("{a=\"é\"é}", SelectFault::BadMatcher { at: 50 }),
    ("{a=\"b\"}}", SelectFault::BadMatcher { at: 50 }),
    ("{job=\"api", SelectFault::BadMatcher { at: 52 }),
];

#[test]
fn selectors_are_read(rt: HostRuntime) -> Result<(), Fail> {
    for behind in READ {
        assert!(rt; refusal(rt.alloc(), behind)?.is_none(), "{behind}");
    }
    Ok(())
}

#[test]
fn a_refusal_names_the_place(rt: HostRuntime) -> Result<(), Fail> {
    for (behind, fault) in REFUSED {
        assert!(rt; refusal(rt.alloc(), behind)? == Some(fault), "{behind}");
    }
    Ok(())
}

#[test]
fn a_type_has_five_parts(rt: HostRuntime) {
    let refused = selector(rt.alloc(), "process_cpu:cpu:nanoseconds:cpu").err();
    assert!(rt; refused == Some(SelectFault::BadType));
}

const TIMES: [(&str, Result<i64, MomentFault>); 10] = [
    ("1000", Ok(1000)),
    ("-0042", Ok(-42)),
    ("-9223372036854775808", Ok(i64::MIN)),
    ("1970-01-01T00:00:01Z", Ok(1000)),
    ("1969-12-31T23:59:59.9999Z", Ok(-1)),
    ("9223372036854775808", Err(MomentFault::BadTime)),
    ("+5", Err(MomentFault::BadTime)),
    ("-", Err(MomentFault::BadTime)),
    ("", Err(MomentFault::BadTime)),
    ("x", Err(MomentFault::BadTime)),
];

#[test]
fn times_are_milliseconds_or_instants(rt: HostRuntime) {
    for (text, time) in TIMES {
        assert!(rt; moment(text) == time, "{text}");
    }
}
