// Words, with the command that they ask for.
use crate::{Command, read_words};
use std::test::Fail;

#[test]
fn commands(rt: HostRuntime) -> Result<(), Fail> {
    let cases: [(&[&str], Option<u64>, &[&str]); 15] = [
        (&["session"], None, &[]),
        (&["session", "--moment", "0"], Some(0), &[]),
        (&["session", "--moment=007"], Some(7), &[]),
        (
            &["session", "--moment", "18446744073709551615"],
            Some(18446744073709551615),
            &[],
        ),
        (&["session", "--moment", "+5"], Some(5), &[]),
        (
            &["session", "--moment", "000000000000000000007"],
            Some(7),
            &[],
        ),
        (&["run", "1 boot"], None, &["1 boot"]),
        (&["run", "session", "help"], None, &["session", "help"]),
        (&["run", "--moment", "5", "x", "y"], Some(5), &["x", "y"]),
        (&["run", "--moment=5", "x"], Some(5), &["x"]),
        (&["run", "x", "--moment", "5", "y"], Some(5), &["x", "y"]),
        (&["run", "x", "--moment=5"], Some(5), &["x"]),
        (&["run", "--", "-x"], None, &["-x"]),
        (&["run", "#"], None, &["#"]),
        (&["run", ""], None, &[""]),
    ];
    for (words, moment, lines) in cases {
        match read_words(rt.alloc(), words)? {
            Some(Command::Session { moment: found }) => {
                assert!(rt; found == moment && lines.is_empty(), "{words:?}");
            }
            Some(
                Command::Run {
                    moment: found,
                    lines: given,
                },
            ) => {
                assert!(rt; found == moment && given.as_slice() == lines, "{words:?}");
            }
            None => return Err("no command".into()),
        }
    }
    Ok(())
}

#[test]
fn no_commands(rt: HostRuntime) -> Result<(), Fail> {
    let cases: [&[&str]; 22] = [
        &[],
        &[""],
        &["help"],
        &["--help"],
        &["-h"],
        &["vdsm", "session"],
        &["dump"],
        &["exercise", "1"],
        &["Session"],
        &["session", "x"],
        &["session", "--help"],
        &["session", "--moment"],
        &["session", "--moment", "x"],
        &["session", "--moment", "-1"],
        &["session", "--moment="],
        &["session", "--moment", "18446744073709551616"],
        &["session", "--moment", "1", "--moment", "1"],
        &["--moment", "1", "session"],
        &["run"],
        &["run", "--moment", "5"],
        &["run", "-x"],
        &["run", "--moment=1", "x", "--moment=1"],
    ];
    for words in cases {
        assert!(rt; read_words(rt.alloc(), words)?.is_none(), "{words:?}");
    }
    Ok(())
}

#[test]
fn moments(rt: HostRuntime) -> Result<(), Fail> {
    let cases: [(&[&str], u64); 4] = [
        (&["session"], 9),
        (&["session", "--moment", "5"], 5),
        (&["run", "x"], 9),
        (&["run", "--moment=5", "x"], 5),
    ];
    for (words, moment) in cases {
        let command = read_words(rt.alloc(), words)?.ok_or("no command")?;
        assert_eq!(rt; command.moment(9), moment);
    }
    Ok(())
}
