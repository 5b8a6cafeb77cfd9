//! The stacks that left handles open, in whatever process.

ghost use Rattle.std.specs.Prelude.{◌≡◌, ◌<◌, List, Contains, IfOk, length, map};
ghost use Rattle.std.specs.List.Sorted.{IsSorted};
ghost use Rattle.htl_event.specs.Events.{Event};
ghost use Rattle.htl_event.specs.Handles.{HaveOwnSequences};
ghost use Rattle.htl_event.specs.Sites.{IsSites};
ghost use Rattle.htl_answers.specs.Parts.{AreEventsOf, AreTablesOf};
ghost use Rattle.htl_summary.specs.Openers.{AreOpenersOf, opener_cmp, is_counted_open, start_of};
ghost use Rattle.htl_summary.specs.Openers.{HaveOwners, IsSiteOfRun, AreSitesOf};

use crate::ranking::{Ranked, put_most_first};
use crate::tables::{Tables, tables_of};
use htl_answers::{Part, put_in_order};
use htl_event::{Kind, NoMemory, SharedEvent, SharedStack, Since, Site};
use std::alloc::{AllocError, Allocator, Global};

/// The stacks that opened handles which are still open, in whatever process: for each the number of
/// these handles and of the processes that have them, the most handles first and then in stack
/// order. Where there is a `since`, only handles that were opened since then count. Stacks with fewer
/// than `at_least` of them are left out. The tables of all parts are joined under `table_alloc`.
pub fn sites<P: Part>(
    alloc: Global,
    table_alloc: &P::Alloc,
    parts: &[P],
    since: Option<Since>,
    at_least: u64,
) -> Result<Vec<Site<SharedStack>>, NoMemory>
    ensures { IfOk result (λ sites. (events : List Event)
        → AreEventsOf (map P.contents parts.now) events
        → HaveOwnSequences events
        → IsSites (Contains events) since at_least sites.items) }
{
    let tables = tables_of(table_alloc, parts)?;
    let mut openers = openers_of(alloc, &tables, since)?;
    openers.sort_unstable();
    let mut sites = sites_of(alloc, &openers, at_least)?;
    put_most_first(&mut sites);
    Ok(sites)
}

/// The stack and the process of each open handle that counts, by process and base handle.
fn openers_of<A: Allocator>(
    alloc: Global,
    tables: &Tables<A>,
    since: Option<Since>,
) -> Result<Vec<(SharedStack, u32)>, NoMemory>
    ensures { IfOk result (λ openers. (events : List Event) → HaveOwnSequences events
        → AreTablesOf events tables.now.latest tables.now.marks tables.now.exits
        → AreOpenersOf events since openers.items) }
{
    let mut openers = Vec::new(alloc);
    for event in tables.latest.rows() {
        if is_counted_open(event, tables, since) {
            openers.push((event.stack.copy()?, event.process))?;
        }
    }
    Ok(openers)
}

/// Whether the latest event of a handle opened it, and it is still open and counts.
fn is_counted_open<A: Allocator>(
    event: &SharedEvent,
    tables: &Tables<A>,
    since: Option<Since>,
) -> bool
    ensures { result
        ≡ is_counted_open tables.now.marks tables.now.exits since event.now }
{
    let exit = tables.exits.get(event.process);
    let start = start_of(event.process, tables, since);
    event.kind == Kind::Opened && event.sequence > start.max(exit)
}

/// The moment after which handles of the process count.
fn start_of<A: Allocator>(process: u32, tables: &Tables<A>, since: Option<Since>) -> u64
    ensures { result ≡ start_of tables.now.marks since process }
{
    match since {
        None => 0,
        Some(Since::Sequence(moment)) => moment,
        Some(Since::Snapshot) => tables.marks.get(process),
    }
}

/// The sites of these stacks and processes, which are sorted. Those of one stack are neighbours.
fn sites_of(
    alloc: Global,
    openers: &[(SharedStack, u32)],
    at_least: u64,
) -> Result<Vec<Site<SharedStack>>, NoMemory>
    requires { IsSorted opener_cmp openers.now }
    ensures { IfOk result (λ sites. AreSitesOf openers.now openers.now at_least sites.items) }
{
    let mut sites = Vec::new(alloc);
    for run in openers.chunk_by(|one, other| one.0 == other.0) {
        if run.len() as u64 >= at_least {
            sites.push(site_of(alloc, run)?)?;
        }
    }
    Ok(sites)
}

/// The site of one stack, which all of the run have.
fn site_of(alloc: Global, run: &[(SharedStack, u32)]) -> Result<Site<SharedStack>, NoMemory>
    requires { 0 < length run.now }
    ensures { IfOk result (IsSiteOfRun run.now) }
{
    Ok(Site {
        stack: run[0].0.copy()?,
        handles: run.len() as u64,
        processes: number_of_processes(alloc, run)?,
    })
}

/// The number of different processes.
fn number_of_processes(alloc: Global, run: &[(SharedStack, u32)]) -> Result<u64, NoMemory>
    ensures { IfOk result (HaveOwners run.now) }
{
    let mut processes = processes_of(alloc, run)?;
    put_in_order(&mut processes);
    Ok(processes.len() as u64)
}

/// The processes, one for each handle.
fn processes_of(alloc: Global, run: &[(SharedStack, u32)]) -> Result<Vec<u32>, AllocError>
    ensures { IfOk result (λ processes. processes.items ≡ map (λ opener. opener.1) run.now) }
{
    run.iter().map(|opener| opener.1).collect(alloc)
}

impl Ranked for Site<SharedStack> {
    ghost use Rattle.htl_answers.specs.RowOrder.{stack_same};

    type Key = SharedStack;

    ghost number_of = { λ site. site.handles };

    ghost key_of = { λ site. site.stack };

    ghost proper = { stack_same };

    fn number(&self) -> u64 {
        self.handles
    }

    fn key(&self) -> &SharedStack {
        &self.stack
    }
}
