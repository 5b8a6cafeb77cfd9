//! Runs over bytes that lie in memory. The program makes those over its files.

use allocation_trials::{Equal, Refusal, Same, Trials};
use htl_command::{Format, InputForm, Job, Question, Setting};
use htl_device::Writing;
use htl_main::run;
use htl_samples::SMALL;
use std::alloc::Global;
use std::mem;
use std::thread::Threads;

/// Ranges of addresses with names, one of which is quoted.
const SYMBOLS: &str = "start,end,module,name
0x1000,0x1020,ntdll,NtCreateFile
2000,2001,app,main
0x3000,0x3010,app,\"operator,\"
";

const LEAKS: Question = Question::Leaks {
    process: 4,
    since: None,
    at_least: 1,
};

const SITES: Question = Question::Sites {
    since: None,
    at_least: 1,
};

const BALANCE: Question = Question::Balance { all: true };

const GROWTH: Question = Question::Growth {
    process: 4,
    points: 20,
};

const TRACE: Question = Question::Trace {
    process: 4,
    handle: 8,
};

/// What is tried: a run that answers a question, by so many workers.
const RUNS: &[(&str, Question, u32)] = &[
    ("run for leaks", LEAKS, 1),
    ("run for sites", SITES, 1),
    ("run for a balance", BALANCE, 1),
    ("run for a trace", TRACE, 1),
    ("run for a growth", GROWTH, 1),
    ("run for a summary by one worker", Question::Summary, 1),
    ("run for a summary by two workers", Question::Summary, 2),
];

pub fn try_all<R: Threads + Sync>(rt: &R, trials: &mut Trials<'_, HostRuntime>) {
    for (name, question, workers) in RUNS {
        let job = job(*question, *workers);
        trials.changes(name, unread, |alloc, running: &mut Running| {
            printed(rt, alloc, &job, running)
        });
    }
}

fn job(question: Question, workers: u32) -> Job {
    Job {
        question,
        setting: Setting {
            form: InputForm {
                hex: false,
                partial: false,
            },
            workers,
            complete: true,
        },
        until: None,
        top: None,
        exit_code: false,
        format: Format::Plain,
    }
}

/// A run's inputs, and what it printed.
#[derive(Drop)]
struct Running {
    inputs: Vec<Vec<u8>>,
    out: Vec<u8>,
}

/// Inputs are only read.
impl Same for Running {
    ghost use Rattle.std.specs.Prelude.{◌≡◌};

    ghost IsSame = { λ one two. one.out.items ≡ two.out.items };

    fn same(&self, other: &Running) -> bool {
        self.out == other.out
    }
}

/// There is room for all that is printed, so that only the run itself needs memory.
fn unread(alloc: Global) -> Result<Running, Refusal> {
    let mut inputs = Vec::new(alloc);
    inputs.push(SMALL.bundle(alloc)?)?;
    let out = Vec::with_capacity(alloc, 65_536)?;
    Ok(Running { inputs, out })
}

fn printed<R: Threads + Sync>(
    rt: &R,
    alloc: Global,
    job: &Job,
    running: &mut Running,
) -> Result<Equal<()>, Refusal> {
    let mut written = mem::replace(&mut running.out, Vec::new(alloc));
    let ended = run(
        rt,
        alloc,
        job,
        &running.inputs,
        Some(SYMBOLS.as_bytes()),
        &mut Writing::new(&mut written),
    );
    running.out = written;
    ended?;
    Ok(Equal(()))
}
