use fd_kinds::{NoMemory, Text};
use fd_words::{Plan, WordsFault, plan_words};
use fixtures::texts;
use std::alloc::Global;
use std::test::Fail;

/// Whether the words have this plan.
fn is_planned(alloc: Global, words: &[&str], plan: &Plan) -> Result<bool, NoMemory> {
    let words = texts(alloc, words)?;
    match plan_words(alloc, &words) {
        Ok(found) => Ok(found == *plan),
        Err(WordsFault::BadWords) => Ok(false),
        Err(WordsFault::NoMemory) => Err(NoMemory),
    }
}

/// Whether each of these lines has this plan.
fn are_planned(alloc: Global, lines: &[&[&str]], plan: &Plan) -> Result<bool, NoMemory> {
    for line in lines {
        if !is_planned(alloc, line, plan)? {
            return Ok(false);
        }
    }
    Ok(true)
}

/// Whether each of these lines is none.
fn are_refused(alloc: Global, lines: &[&[&str]]) -> Result<bool, NoMemory> {
    for line in lines {
        let words = texts(alloc, line)?;
        match plan_words(alloc, &words) {
            Ok(_) => return Ok(false),
            Err(WordsFault::BadWords) => {}
            Err(WordsFault::NoMemory) => return Err(NoMemory),
        }
    }
    Ok(true)
}

/// Whether these words of a session name this folder.
fn is_folder(alloc: Global, words: &[&str], dir: &str) -> Result<bool, NoMemory> {
    let dir = Text::of(alloc, dir)?;
    is_planned(alloc, words, &Plan::Session { dir })
}

#[test]
fn a_session_has_a_folder(rt: HostRuntime) -> Result<(), Fail> {
    let alloc = rt.alloc();
    assert!(rt; is_folder(alloc, &["session"], "frostd-data")?);
    assert!(rt; is_folder(alloc, &["session", "--"], "frostd-data")?);
    assert!(rt; is_folder(alloc, &["session", "--dir", "d"], "d")?);
    assert!(rt; is_folder(alloc, &["session", "--dir=d"], "d")?);
    assert!(rt; is_folder(alloc, &["session", "--dir", "d", "--"], "d")?);
    assert!(rt; is_folder(alloc, &["session", "--dir=--"], "--")?);
    Ok(())
}

#[test]
fn a_folder_may_be_any_text(rt: HostRuntime) -> Result<(), Fail> {
    let alloc = rt.alloc();
    assert!(rt; is_folder(alloc, &["session", "--dir", "-"], "-")?);
    assert!(rt; is_folder(alloc, &["session", "--dir=a=b"], "a=b")?);
    assert!(rt; is_folder(alloc, &["session", "--dir="], "")?);
    assert!(rt; is_folder(alloc, &["session", "--dir", ""], "")?);
    assert!(rt; is_folder(alloc, &["session", "--dir=-é"], "-é")?);
    Ok(())
}

#[test]
fn compact_dump_and_verify_have_a_folder(rt: HostRuntime) -> Result<(), Fail> {
    let alloc = rt.alloc();
    let dir = Text::of(alloc, "frostd-data")?;
    assert!(rt; is_planned(alloc, &["compact"], &Plan::Compact { dir })?);
    let dir = Text::of(alloc, "d")?;
    assert!(rt; is_planned(alloc, &["dump", "--dir", "d"], &Plan::Dump { dir })?);
    let dir = Text::of(alloc, "d")?;
    assert!(rt; is_planned(alloc, &["verify", "--dir=d"], &Plan::Verify { dir })?);
    Ok(())
}

#[test]
fn persist_may_rotate(rt: HostRuntime) -> Result<(), Fail> {
    let alloc = rt.alloc();
    let dir = Text::of(alloc, "d")?;
    let rotate = Plan::Persist { dir, rotate: true };
    let lines: [&[&str]; 2] = [
        &["persist", "--rotate", "--dir", "d"],
        &["persist", "--dir=d", "--rotate"],
    ];
    assert!(rt; are_planned(alloc, &lines, &rotate)?);
    let dir = Text::of(alloc, "frostd-data")?;
    assert!(rt; is_planned(alloc, &["persist"], &Plan::Persist { dir, rotate: false })?);
    Ok(())
}

#[test]
fn make_has_a_seed_and_a_count(rt: HostRuntime) -> Result<(), Fail> {
    let alloc = rt.alloc();
    let dir = Text::of(alloc, "d")?;
    let make = Plan::Make {
        dir,
        seed: 7,
        count: 100,
    };
    let lines: [&[&str]; 5] = [
        &["make", "7", "100", "--dir", "d"],
        &["make", "--dir=d", "7", "100"],
        &["make", "7", "--dir", "d", "100"],
        &["make", "--dir=d", "--", "7", "100"],
        &["make", "7", "--dir=d", "--", "100"],
    ];
    assert!(rt; are_planned(alloc, &lines, &make)?);
    let dir = Text::of(alloc, "frostd-data")?;
    let most = Plan::Make {
        dir,
        seed: 18_446_744_073_709_551_615,
        count: 10_000,
    };
    assert!(rt; is_planned(alloc, &["make", "18446744073709551615", "10000"], &most)?);
    Ok(())
}

#[test]
fn serve_has_an_address_and_numbers(rt: HostRuntime) -> Result<(), Fail> {
    let alloc = rt.alloc();
    let usual = Plan::Serve {
        dir: Text::of(alloc, "frostd-data")?,
        listen: Text::of(alloc, "127.0.0.1:7070")?,
        workers: 4,
        connections: 0,
    };
    assert!(rt; is_planned(alloc, &["serve"], &usual)?);
    let other = Plan::Serve {
        dir: Text::of(alloc, "d")?,
        listen: Text::of(alloc, "[::1]:80")?,
        workers: 32,
        connections: 5,
    };
    let lines: [&[&str]; 2] = [
        &[
            "serve",
            "--dir",
            "d",
            "--listen",
            "[::1]:80",
            "--workers",
            "32",
            "--connections",
            "5",
        ],
        &[
            "serve",
            "--connections=5",
            "--workers=32",
            "--dir=d",
            "--listen=[::1]:80",
        ],
    ];
    assert!(rt; are_planned(alloc, &lines, &other)?);
    Ok(())
}

#[test]
fn words_of_no_command_are_refused(rt: HostRuntime) -> Result<(), Fail> {
    let lines: [&[&str]; 8] = [
        &["sesion"],
        &[],
        &[""],
        &["Session"],
        &["--dir", "d", "session"],
        &["--help"],
        &["help"],
        &["session", "help"],
    ];
    assert!(rt; are_refused(rt.alloc(), &lines)?);
    Ok(())
}

#[test]
fn words_of_no_option_are_refused(rt: HostRuntime) -> Result<(), Fail> {
    let lines: [&[&str]; 20] = [
        &["session", "--dir"],
        &["session", "d"],
        &["session", "--dir", "a", "--dir=a"],
        &["session", "--dir", "--dir"],
        &["session", "--dir", "--"],
        &["session", "--di", "d"],
        &["session", "-d", "d"],
        &["session", "--dir", "-d"],
        &["session", "-é"],
        &["session", "--help"],
        &["session", "-h"],
        &["session", "--version"],
        &["session", "--", "d"],
        &["session", "--", "--dir=d"],
        &["session", "--=d"],
        &["dump", "--rotate"],
        &["persist", "--rotate", "--rotate"],
        &["persist", "--rotate=true"],
        &["persist", "--rotate", "true"],
        &["serve", "--workers"],
    ];
    assert!(rt; are_refused(rt.alloc(), &lines)?);
    Ok(())
}

#[test]
fn numbers_of_no_form_are_refused(rt: HostRuntime) -> Result<(), Fail> {
    let lines: [&[&str]; 16] = [
        &["make", "1", "0"],
        &["make", "1", "10001"],
        &["make", "1"],
        &["make"],
        &["make", "1", "2", "3"],
        &["make", "01", "1"],
        &["make", "+1", "1"],
        &["make", "-1", "1"],
        &["make", "--", "-1", "1"],
        &["make", "", "1"],
        &["make", "18446744073709551616", "1"],
        &["serve", "--workers=0"],
        &["serve", "--workers=33"],
        &["serve", "--workers", "04"],
        &["serve", "--connections=18446744073709551616"],
        &["serve", "--connections= 1"],
    ];
    assert!(rt; are_refused(rt.alloc(), &lines)?);
    Ok(())
}
