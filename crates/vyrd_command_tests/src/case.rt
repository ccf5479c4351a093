//! Worked cases of the top call, and the devices that they run over.

ghost use Rattle.std.specs.Prelude.{◌≡◌, ◌≤◌, false, length};

use std::alloc::{AllocError, Global};
use std::io::Read;
use std::process::Abort;
use std::sync::Wait;
use std::thread::Threads;
use vyrd_base::{Gate, MemorySink, MemorySource, OpenGate, Source, StdSource};
use vyrd_command::{Answer, status, vyrd};

/// The most bytes that a sink takes of an answer. No answer here is as long.
const ROOM: usize = 262_144;

/// Words and an input, the devices of a call, and what it answers.
#[derive(Clone, Copy)]
pub struct Case {
    pub name: &'static str,
    pub words: &'static [&'static str],
    pub input: &'static [u8],
    pub devices: Devices<'static>,
    pub status: u8,
    pub answer: &'static [u8],
}

/// How a source gives its bytes, and how a sink takes them: the most in one call, 1 at least, and
/// the numbers of the calls that fail.
#[derive(Clone, Copy)]
pub struct Devices<'a> {
    pub longest_read: usize,
    pub failing_reads: &'a [u64],
    pub longest_write: usize,
    pub failing_writes: &'a [u64],
}

/// Devices that give and take a byte a call, and never fail.
pub const BYTE_BY_BYTE: Devices<'static> = Devices {
    longest_read: 1,
    failing_reads: &[],
    longest_write: 1,
    failing_writes: &[],
};

/// How many bytes a short write takes at most.
const SHORT_WRITE: usize = 5;

/// Devices that give 16 bytes and take 5 a call, and never fail.
pub const SHORT: Devices<'static> = Devices {
    longest_read: 16,
    failing_reads: &[],
    longest_write: SHORT_WRITE,
    failing_writes: &[],
};

/// Devices that give and take up to 65,536 bytes a call, and never fail.
pub const LONG: Devices<'static> = Devices {
    longest_read: 65_536,
    failing_reads: &[],
    longest_write: 65_536,
    failing_writes: &[],
};

/// Asserts that a call ends with the status of its case and has written the answer.
pub fn assert_answers<R: Threads + Wait + Abort + Sync>(rt: &R, alloc: Global, cases: &[Case]) {
    for case in cases {
        assert!(rt; case.is_answered(rt, alloc), "{}", case.name);
    }
}

/// Asserts the same of each cutting of an input into two pieces.
pub fn assert_in_every_cutting<R: Threads + Wait + Abort + Sync>(
    rt: &R,
    alloc: Global,
    cases: &[Case],
) {
    for case in cases {
        assert!(rt;
            case.is_answered_in_every_cutting(rt, alloc),
            "{}",
            case.name
        );
    }
}

/// Asserts that a call makes this many short reads, that if one of them fails it ends in status 4
/// with nothing written, and that it makes no other read.
pub fn assert_each_read<R: Threads + Wait + Abort + Sync>(
    rt: &R,
    alloc: Global,
    case: &Case,
    reads: u32,
) {
    for before in 0..reads {
        let read = u64::from(before) + 1;
        assert!(rt;
            case.is_answered_without_read(rt, alloc, read, status::READ_FAULT, b""),
            "{} at read {read}",
            case.name
        );
    }
    let behind = u64::from(reads) + 1;
    assert!(rt;
        case.is_answered_without_read(rt, alloc, behind, case.status, case.answer),
        "{} behind its reads",
        case.name
    );
}

/// Asserts that a call makes this many short writes, that if one of them fails it ends in status 5
/// with the bytes before it written, and that it makes no other write.
pub fn assert_each_write<R: Threads + Wait + Abort + Sync>(
    rt: &R,
    alloc: Global,
    case: &Case,
    writes: u32,
) {
    for before in 0..writes {
        let write = u64::from(before) + 1;
        let written = SHORT_WRITE * before as usize;
        assert!(rt;
            case.is_answered_without_write(rt, alloc, write, status::WRITE_FAULT, written),
            "{} at write {write}",
            case.name
        );
    }
    let behind = u64::from(writes) + 1;
    let whole = case.answer.len();
    assert!(rt;
        case.is_answered_without_write(rt, alloc, behind, case.status, whole),
        "{} behind its writes",
        case.name
    );
}

impl Case {
    /// Whether a call over the case's devices ends with its status and has written its answer.
    pub fn is_answered<R: Threads + Wait + Sync>(&self, rt: &R, alloc: Global) -> bool {
        self.is_answered_to(rt, alloc, self.input, &OpenGate)
    }

    /// Whether a call on another input does so, and with a gate.
    pub fn is_answered_to<R: Threads + Wait + Sync, G: Gate>(
        &self,
        rt: &R,
        alloc: Global,
        input: &[u8],
        gate: &G,
    ) -> bool {
        let found = answer_to(rt, alloc, self.words, input, &self.devices, gate);
        is_answer(&found, self.status, self.answer)
    }

    /// Whether a call does so over a source that gives the input in two pieces, wherever it is cut.
    fn is_answered_in_every_cutting<R: Threads + Wait + Sync>(
        &self,
        rt: &R,
        alloc: Global,
    ) -> bool {
        for cut in 0..=self.input.len() {
            if !self.is_answered_cut(rt, alloc, cut) {
                return false;
            }
        }
        true
    }

    /// Whether it does so if the first piece has so many bytes.
    fn is_answered_cut<R: Threads + Wait + Sync>(&self, rt: &R, alloc: Global, cut: usize) -> bool
        requires { cut ≤ length self.now.input.now }
    {
        let Ok(mut sink) = MemorySink::new(alloc, ROOM, ROOM, &[]) else {
            return false;
        };
        let (front, back) = self.input.split_at(cut);
        let mut source = StdSource::new(front.chain(back));
        let status = call(rt, alloc, self.words, &mut source, &mut sink, &OpenGate);
        status == self.status && sink.taken() == self.answer
    }

    /// Whether a call ends in this status and has written this over short reads, of which that
    /// number fails.
    fn is_answered_without_read<R: Threads + Wait + Sync>(
        &self,
        rt: &R,
        alloc: Global,
        read: u64,
        status: u8,
        answer: &[u8],
    ) -> bool {
        let devices = Devices {
            failing_reads: &[read],
            ..SHORT
        };
        let found = answer_to(rt, alloc, self.words, self.input, &devices, &OpenGate);
        is_answer(&found, status, answer)
    }

    /// Whether a call ends in this status and has written so many bytes of the answer over short
    /// writes, of which that number fails.
    fn is_answered_without_write<R: Threads + Wait + Sync>(
        &self,
        rt: &R,
        alloc: Global,
        write: u64,
        status: u8,
        written: usize,
    ) -> bool {
        let devices = Devices {
            failing_writes: &[write],
            ..SHORT
        };
        let found = answer_to(rt, alloc, self.words, self.input, &devices, &OpenGate);
        match self.answer.get(..written) {
            Some(front) => is_answer(&found, status, front),
            None => false,
        }
    }
}

/// What a call answers to words and an input over these devices, and with a gate.
pub fn answer_to<R: Threads + Wait + Sync, G: Gate>(
    rt: &R,
    alloc: Global,
    words: &[&str],
    input: &[u8],
    devices: &Devices<'_>,
    gate: &G,
) -> Result<Answer, AllocError> {
    let longest_read = devices.longest_read.max(1);
    let longest_write = devices.longest_write.max(1);
    let mut source = MemorySource::new(alloc, input, longest_read, devices.failing_reads)?;
    let mut sink = MemorySink::new(alloc, ROOM, longest_write, devices.failing_writes)?;
    let status = call(rt, alloc, words, &mut source, &mut sink, gate);
    let text = Vec::from_slice(alloc, sink.taken())?;
    Ok(Answer { status, text })
}

/// The status of a call.
fn call<R: Threads + Wait + Sync, S: Source, G: Gate>(
    rt: &R,
    alloc: Global,
    words: &[&str],
    source: &mut S,
    sink: &mut MemorySink,
    gate: &G,
) -> u8
    requires { (S.known source.old).ended ≡ false }
{
    vyrd(rt, alloc, words, source, sink, gate).status
}

/// Whether this is the status and the text of an answer.
pub fn is_answer(found: &Result<Answer, AllocError>, status: u8, text: &[u8]) -> bool {
    match found {
        Ok(answer) => answer.status == status && answer.text.as_slice() == text,
        Err(_) => false,
    }
}
