//! Worked command lines.
use command_words::{Command, WordsFault, read_words};
use std::alloc::AllocError;
use std::test::Fail;

struct Row {
    // With a blank between two words, and none for no words.
    line: &'static str,
    command: Option<Command>,
}

static ROWS: [Row; 38] = [
    Row {
        line: "replay",
        command: Some(Command::Replay),
    },
    Row {
        line: "run",
        command: Some(Command::Run),
    },
    Row {
        line: "run 1",
        command: None,
    },
    Row {
        line: "running",
        command: None,
    },
    Row {
        line: "read",
        command: Some(Command::Read),
    },
    Row {
        line: "check",
        command: Some(Command::Check),
    },
    Row {
        line: "gen 0 1 1",
        command: Some(Command::Gen {
            number: 0,
            writers: 1,
            packets: 1,
        }),
    },
    Row {
        line: "gen 18446744073709551615 64 100000",
        command: Some(Command::Gen {
            number: 18_446_744_073_709_551_615,
            writers: 64,
            packets: 100_000,
        }),
    },
    Row {
        line: "gen 18446744073709551616 64 100000",
        command: None,
    },
    Row {
        line: "gen 0 0 1",
        command: None,
    },
    Row {
        line: "gen 0 65 1",
        command: None,
    },
    Row {
        line: "gen 0 1 0",
        command: None,
    },
    Row {
        line: "gen 0 1 100001",
        command: None,
    },
    Row {
        line: "gen 00 1 1",
        command: None,
    },
    Row {
        line: "gen +0 1 1",
        command: None,
    },
    Row {
        line: "gen 0 1",
        command: None,
    },
    Row {
        line: "gen 0 1 1 1",
        command: None,
    },
    Row {
        line: "gen 0x1 1 1",
        command: None,
    },
    Row {
        line: "stream",
        command: Some(Command::Stream),
    },
    Row {
        line: "stream 1",
        command: None,
    },
    Row {
        line: "clone",
        command: Some(Command::Clone),
    },
    Row {
        line: "clone 1",
        command: None,
    },
    Row {
        line: "tune 1 1",
        command: Some(Command::Tune { users: 1, turns: 1 }),
    },
    Row {
        line: "tune 8 10000",
        command: Some(Command::Tune {
            users: 8,
            turns: 10_000,
        }),
    },
    Row {
        line: "tune 9 1",
        command: None,
    },
    Row {
        line: "tune 1 10001",
        command: None,
    },
    Row {
        line: "tune 0 1",
        command: None,
    },
    Row {
        line: "tune 1 01",
        command: None,
    },
    Row {
        line: "tune 1",
        command: None,
    },
    Row {
        line: "play",
        command: None,
    },
    Row {
        line: "Replay",
        command: None,
    },
    Row {
        line: "replay replay",
        command: None,
    },
    Row {
        line: "x replay",
        command: None,
    },
    Row {
        line: "help",
        command: None,
    },
    Row {
        line: "--help",
        command: None,
    },
    Row {
        line: "-V",
        command: None,
    },
    Row {
        line: "gen -- 0 1 1",
        command: None,
    },
    Row {
        line: "gen 1 2 -3",
        command: None,
    },
];

fn words_of(rt: &impl AllocGlobal, line: &str) -> Result<Vec<String>, AllocError> {
    let mut words = Vec::new(rt.alloc());
    for word in line.split(' ') {
        words.push(String::from_str(rt.alloc(), word)?)?;
    }
    Ok(words)
}

#[test]
fn reads_command_lines(rt: HostRuntime) -> Result<(), Fail> {
    for row in &ROWS {
        let words = words_of(&rt, row.line)?;
        let wanted = row.command.ok_or(WordsFault::Unknown);
        assert_eq!(rt; read_words(rt.alloc(), &words), wanted);
    }
    let none = Vec::new(rt.alloc());
    assert_eq!(rt; read_words(rt.alloc(), &none), Err(WordsFault::Unknown));
    Ok(())
}
