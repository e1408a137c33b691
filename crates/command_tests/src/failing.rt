//! Tests in which each read and each write of each command fails in turn.

use crate::comparing::same;
use crate::files::{ball, short};
use crate::outcomes::{Call, Fails, Given, outcome};
use iges_base::Bytes;
use std::alloc::Global;
use std::process::Abort;
use std::test::Fail;

const CERTIFICATE: &[u8] =
    b"IGESCERT 2\nSOLID 1\nSHELL 1 2 1 2 1\nE 1 2\nC 1\nC 2\nTALLY 2 1 1 1\nEND\n";

const BOOK: &[u8] = b"IGESCERT 3\nSOLID 1\nSHELL 1 2 1 2 1\nE 1 2\nC 1\nC 2\nTALLY 2 1 1 1\nEND\n";

const OPEN_CERTIFICATE: &[u8] = b"IGESOPEN 1\nSHELL 3 2 1 2 1 0\nE 1 2\nC 1\nC 2\nEND\n";

const ORIENTATION: &[u8] = b"ORIENT 1\nF 1 1\nEND\n";

// What a command reads: of a file, the ball.
#[derive(Clone, Copy)]
enum Inputs {
    Nothing,
    File,
    FileAndCertificate(&'static [u8]),
}

// A command: its words, what it reads, how long the text is that it writes, and how that begins.
struct Command {
    words: &'static [&'static str],
    inputs: Inputs,
    length: usize,
    front: &'static [u8],
}

const COMMANDS: &[Command] = &[
    Command {
        words: &["solids", "FILE"],
        inputs: Inputs::File,
        length: 2,
        front: b"1\n",
    },
    Command {
        words: &["show", "FILE", "1"],
        inputs: Inputs::File,
        length: 74,
        front: b"solid 1\n",
    },
    Command {
        words: &["certify", "FILE", "1"],
        inputs: Inputs::File,
        length: 67,
        front: CERTIFICATE,
    },
    Command {
        words: &["certify", "FILE", "all"],
        inputs: Inputs::File,
        length: 67,
        front: BOOK,
    },
    Command {
        words: &["extract", "FILE", "1"],
        inputs: Inputs::File,
        length: 2430,
        front: b"",
    },
    Command {
        words: &["compact", "FILE", "1"],
        inputs: Inputs::File,
        length: 2430,
        front: b"",
    },
    Command {
        words: &["open", "FILE", "3"],
        inputs: Inputs::File,
        length: 47,
        front: OPEN_CERTIFICATE,
    },
    Command {
        words: &["orient", "FILE", "1"],
        inputs: Inputs::File,
        length: 19,
        front: ORIENTATION,
    },
    Command {
        words: &["verify", "FILE", "CERT"],
        inputs: Inputs::FileAndCertificate(CERTIFICATE),
        length: 11,
        front: b"accepted 1\n",
    },
    Command {
        words: &["verify", "FILE", "CERT"],
        inputs: Inputs::FileAndCertificate(BOOK),
        length: 11,
        front: b"accepted 1\n",
    },
    Command {
        words: &["upgrade", "FILE", "CERT"],
        inputs: Inputs::FileAndCertificate(CERTIFICATE),
        length: 67,
        front: CERTIFICATE,
    },
    Command {
        words: &["open-verify", "FILE", "CERT"],
        inputs: Inputs::FileAndCertificate(OPEN_CERTIFICATE),
        length: 11,
        front: b"accepted 3\n",
    },
    Command {
        words: &["orient-verify", "FILE", "CERT"],
        inputs: Inputs::FileAndCertificate(ORIENTATION),
        length: 11,
        front: b"accepted 1\n",
    },
    Command {
        words: &["sample", "3"],
        inputs: Inputs::Nothing,
        length: 72,
        front: b"sample 3 ",
    },
];

// Has no clause, so that no goal holds the commands.
fn commands() -> &'static [Command] {
    COMMANDS
}

impl Command {
    fn given(&self) -> Given<'static> {
        let words = self.words;
        match self.inputs {
            Inputs::Nothing => Given {
                words,
                file: None,
                certificate: None,
            },
            Inputs::File => Given {
                words,
                file: Some(ball()),
                certificate: None,
            },
            Inputs::FileAndCertificate(certificate) => Given {
                words,
                file: Some(ball()),
                certificate: Some(certificate),
            },
        }
    }
}

// How many calls move so many bytes.
fn moves(length: usize, size: u64) -> u64 {
    (length as u64).div_ceil(size.max(1))
}

// How many reads give all bytes of a text, and then none.
fn reads(text: Option<&[u8]>, size: u64) -> u64 {
    match text {
        Some(text) => moves(text.len(), size).saturating_add(1),
        None => 0,
    }
}

// Compares the status and the text of a run of these words.
fn compare(rt: &impl Abort, given: Given, got: &(u8, Bytes), status: u8, text: &[u8]) {
    same(
        rt,
        &(given.words, got.0, got.1.as_slice()),
        &(given.words, status, text),
    );
}

// The front of a text that so many calls of this size wrote.
fn front(text: &[u8], calls: u64, size: u64) -> &[u8] {
    text.get(..calls.saturating_mul(size) as usize)
        .unwrap_or(text)
}

impl Call {
    // How many calls of this kind a run makes, of which each moves at most `size` bytes.
    fn count(self, given: Given, written: usize, size: u64) -> u64 {
        match self {
            Call::FileRead => reads(given.file, size),
            Call::CertificateRead => reads(given.certificate, size),
            Call::Write => moves(written, size),
        }
    }

    // The status of a run in which a call of this kind fails.
    fn status(self) -> u8 {
        match self {
            Call::FileRead | Call::CertificateRead => 4,
            Call::Write => 5,
        }
    }

    // What was written before a call of this kind failed, after so many that passed.
    fn written(self, text: &[u8], passed: u64, size: u64) -> &[u8] {
        match self {
            Call::FileRead | Call::CertificateRead => b"",
            Call::Write => front(text, passed, size),
        }
    }
}

// Compares the status and the text of a run in which this call fails, if the run comes to it.
fn ends(
    rt: &impl Abort,
    alloc: Global,
    given: Given,
    fails: Fails,
    status: u8,
    text: &[u8],
) -> Result<(), Fail> {
    let got = outcome(alloc, given, Some(fails))?;
    compare(rt, given, &got, status, text);
    drop(got);
    Ok(())
}

// This call fails, which comes in a run that writes the text where none fails.
fn fails_at(
    rt: &impl Abort,
    alloc: Global,
    given: Given,
    fails: Fails,
    text: &[u8],
) -> Result<(), Fail> {
    let call = fails.call;
    let written = call.written(text, fails.at.saturating_sub(1), fails.size);
    ends(rt, alloc, given, fails, call.status(), written)
}

// Each call of a kind fails in turn, until the run passes.
fn fails_in_turn(
    rt: &impl Abort,
    alloc: Global,
    given: Given,
    call: Call,
    size: u64,
    whole: &(u8, Bytes),
) -> Result<(), Fail> {
    let text = whole.1.as_slice();
    let count = call.count(given, text.len(), size);
    'calls: for passed in 0..count {
        let at = passed.saturating_add(1);
        fails_at(rt, alloc, given, Fails { call, size, at }, text)?;
    }
    let at = count.saturating_add(1);
    ends(rt, alloc, given, Fails { call, size, at }, whole.0, text)
}

// Each call of a kind fails in turn, whatever it moves at most.
fn fails_at_each(
    rt: &impl Abort,
    alloc: Global,
    given: Given,
    call: Call,
    whole: &(u8, Bytes),
) -> Result<(), Fail> {
    'sizes: for size in [17, 81] {
        fails_in_turn(rt, alloc, given, call, size, whole)?;
    }
    Ok(())
}

// Compares the status of a run, and how long its text is and how it begins.
fn starts(rt: &impl Abort, got: &(u8, Bytes), status: u8, length: usize, front: &[u8]) {
    let text = got.1.as_slice();
    same(
        rt,
        &(got.0, text.len(), text.get(..front.len())),
        &(status, length, Some(front)),
    );
}

// The short file in place of the file, where there is one.
fn shortened(given: Given) -> Given {
    let file = match given.file {
        Some(_) => Some(short()),
        None => None,
    };
    Given { file, ..given }
}

// Each read of the short file fails in turn.
fn fails_at_each_file_read(rt: &impl Abort, alloc: Global, given: Given) -> Result<(), Fail> {
    let given = shortened(given);
    let whole = outcome(alloc, given, None)?;
    let told = fails_at_each(rt, alloc, given, Call::FileRead, &whole);
    drop(whole);
    told
}

// Each read of the certificate and each write fails in turn.
fn fails_at_each_other_call(
    rt: &impl Abort,
    alloc: Global,
    given: Given,
    whole: &(u8, Bytes),
) -> Result<(), Fail> {
    fails_in_turn(rt, alloc, given, Call::CertificateRead, 1, whole)?;
    fails_at_each(rt, alloc, given, Call::CertificateRead, whole)?;
    fails_at_each(rt, alloc, given, Call::Write, whole)
}

// Each call fails in turn, whatever it moves at most.
fn fails_at_each_call(rt: &impl Abort, alloc: Global, command: &Command) -> Result<(), Fail> {
    let given = command.given();
    let whole = outcome(alloc, given, None)?;
    starts(rt, &whole, 0, command.length, command.front);
    let told = fails_at_each_other_call(rt, alloc, given, &whole);
    drop(whole);
    told?;
    fails_at_each_file_read(rt, alloc, given)
}

#[test]
fn each_call_of_each_command_fails_in_turn(rt: HostRuntime) -> Result<(), Fail> {
    'commands: for command in commands() {
        fails_at_each_call(&rt, rt.alloc(), command)?;
    }
    Ok(())
}

// Runs `verify` on a file and a certificate, of which this read fails, if it comes to it.
fn verified(alloc: Global, file: &[u8], certificate: &[u8], at: u64) -> Result<(u8, Bytes), Fail> {
    let given = Given {
        words: &["verify", "FILE", "CERT"],
        file: Some(file),
        certificate: Some(certificate),
    };
    let call = Call::CertificateRead;
    outcome(alloc, given, Some(Fails { call, size: 5, at }))
}

#[test]
fn the_certificate_of_a_bad_file_is_left(rt: HostRuntime) -> Result<(), Fail> {
    let got = verified(rt.alloc(), b"", b"", 1)?;
    starts(&rt, &got, 3, 24, b"bad file line 1 missing\n");
    Ok(())
}

#[test]
fn a_certificate_is_read_to_its_end_behind_a_bad_line(rt: HostRuntime) -> Result<(), Fail> {
    let got = verified(rt.alloc(), short(), b"x\n", 2)?;
    starts(&rt, &got, 4, 0, b"");
    Ok(())
}

#[test]
fn the_usage_is_told_without_a_read(rt: HostRuntime) -> Result<(), Fail> {
    let given = Given {
        words: &[],
        file: None,
        certificate: None,
    };
    let call = Call::FileRead;
    let (size, at) = (1, 1);
    let got = outcome(rt.alloc(), given, Some(Fails { call, size, at }))?;
    starts(&rt, &got, 2, 242, b"usage: igesolid solids FILE | ");
    Ok(())
}
