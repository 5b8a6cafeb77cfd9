//! Why a call gives no answer.

ghost use Rattle.std.specs.Prelude.{◌≡◌, ◌↔◌, ◌⊎◌, IsTrue};
ghost use Rattle.htl_inputs.specs.declared.fault.RunFault.TheVariants as runs;
ghost use Rattle.allocation_trials.specs.Refusals.{IsOutOfMemory, LacksMemory};
ghost use Rattle.htl_analyst.specs.declared.fault.AnalystFault.TheVariants as analysts;
ghost use Rattle.htl_analyst.specs.declared.fault.MergeFault.TheVariants as merges;
ghost use Rattle.htl_analyst.specs.declared.fault.RestoreFault.TheVariants as restores;
ghost use Rattle.htl_analyst.specs.declared.fault.TakeFault.TheVariants as takes;
ghost use Rattle.htl_case.specs.declared.fault.CaseFault.TheVariants as cases;
ghost use Rattle.htl_case.specs.declared.fault.PlayFault.TheVariants as plays;
ghost use Rattle.htl_exchange.specs.declared.fault.StartFault.TheVariants as starts;
ghost use Rattle.htl_exchange.specs.declared.fault.SurveyFault.TheVariants as surveys;
ghost use Rattle.htl_samples.specs.declared.fault.SampleFault.TheVariants as samples;
ghost use Rattle.htl_saved.specs.declared.fault.SaveFault.TheVariants as saves;
ghost use Rattle.htl_segment.specs.declared.fault.Fault.TheVariants as segments;
ghost use Rattle.htl_segment.specs.declared.hexadecimal.HexFault.TheVariants as digits;
ghost use Rattle.htl_state.specs.declared.fault.Fault.TheVariants as states;

use htl_analyst::{AnalystFault, MergeFault, RestoreFault, TakeFault};
use htl_case::{CaseFault, PlayFault};
use htl_event::NoMemory;
use htl_exchange::{StartFault, SurveyFault};
use htl_main::{Refused, RunFault};
use htl_samples::SampleFault;
use htl_saved::{LoadFault, SaveFault};
use htl_segment::{Fault, HexFault};
use htl_state::{Fault as StateFault, StateError};
use std::alloc::{AllocError, AllocFailed};

/// Why a call gives no answer.
#[derive(Clone, Copy, Debug, PartialEq, Eq)]
pub enum Refusal {
    /// An allocation was refused, or a thread, which needs some.
    Memory,
    /// Anything else.
    Other,
}

impl Refusal {
    /// The refusal of a fault that reports out of memory, or something else.
    pub fn of(out_of_memory: bool) -> Refusal
        ensures { IsOutOfMemory result ↔ IsTrue out_of_memory }
    {
        if out_of_memory {
            Refusal::Memory
        } else {
            Refusal::Other
        }
    }
}

/// What a call answered, or why it gave no answer.
pub fn answered<T, E>(answer: Result<T, E>) -> Result<T, Refusal>
where
    Refusal: From<E>,
{
    Ok(answer?)
}

/// Two values that a call is made on, or why one of them can't be made.
pub fn both<A: Drop, B: Drop, E: Drop, F: Drop>(
    one: Result<A, E>,
    two: Result<B, F>,
) -> Result<(A, B), Refusal>
where
    Refusal: From<E>,
    Refusal: From<F>,
{
    Ok((one?, two?))
}

impl From<AllocError> for Refusal {
    ghost from_gives = { λ _. IsOutOfMemory };

    fn from(_refused: AllocError) -> Refusal {
        Refusal::Memory
    }
}

impl<T: Drop> From<AllocFailed<T>> for Refusal {
    ghost from_gives = { λ _. IsOutOfMemory };

    fn from(_refused: AllocFailed<T>) -> Refusal {
        Refusal::Memory
    }
}

impl From<NoMemory> for Refusal {
    ghost from_gives = { λ _. IsOutOfMemory };

    fn from(_refused: NoMemory) -> Refusal {
        Refusal::Memory
    }
}

impl From<SampleFault> for Refusal {
    ghost from_gives = { λ fault refusal. IsOutOfMemory refusal ↔ (fault ≡ samples.NoMemory) };

    fn from(fault: SampleFault) -> Refusal {
        Refusal::of(fault == SampleFault::NoMemory)
    }
}

impl From<Fault> for Refusal {
    ghost from_gives = { λ fault refusal. IsOutOfMemory refusal ↔ (fault ≡ segments.NoMemory) };

    fn from(fault: Fault) -> Refusal {
        Refusal::of(fault == Fault::NoMemory)
    }
}

impl From<(u64, Fault)> for Refusal {
    ghost from_gives = { λ fault refusal. IsOutOfMemory refusal ↔ (fault.1 ≡ segments.NoMemory) };

    fn from((_, fault): (u64, Fault)) -> Refusal {
        Refusal::from(fault)
    }
}

impl From<HexFault> for Refusal {
    ghost from_gives = { λ fault refusal. IsOutOfMemory refusal ↔ (fault ≡ digits.NoMemory) };

    fn from(fault: HexFault) -> Refusal {
        Refusal::of(fault == HexFault::NoMemory)
    }
}

impl From<AnalystFault> for Refusal {
    ghost from_gives = { λ fault refusal. IsOutOfMemory refusal ↔ (fault ≡ analysts.NoMemory) };

    fn from(fault: AnalystFault) -> Refusal {
        Refusal::of(fault == AnalystFault::NoMemory)
    }
}

impl From<TakeFault> for Refusal {
    ghost from_gives = { λ fault refusal. IsOutOfMemory refusal ↔ (fault ≡ takes.NoMemory) };

    fn from(fault: TakeFault) -> Refusal {
        Refusal::of(fault == TakeFault::NoMemory)
    }
}

impl From<MergeFault> for Refusal {
    ghost from_gives = { λ fault refusal. IsOutOfMemory refusal ↔ (fault ≡ merges.NoMemory) };

    fn from(fault: MergeFault) -> Refusal {
        Refusal::of(fault == MergeFault::NoMemory)
    }
}

impl From<RestoreFault> for Refusal {
    ghost from_gives = { λ fault refusal. IsOutOfMemory refusal ↔ (fault ≡ restores.NoMemory) };

    fn from(fault: RestoreFault) -> Refusal {
        Refusal::of(fault == RestoreFault::NoMemory)
    }
}

impl From<StateError> for Refusal {
    ghost from_gives = { λ error refusal. IsOutOfMemory refusal ↔ (error.fault ≡ states.NoMemory) };

    fn from(error: StateError) -> Refusal {
        Refusal::of(error.fault == StateFault::NoMemory)
    }
}

impl From<SaveFault> for Refusal {
    ghost from_gives = { λ fault refusal. IsOutOfMemory refusal ↔ (fault ≡ saves.NoMemory) };

    fn from(fault: SaveFault) -> Refusal {
        Refusal::of(fault == SaveFault::NoMemory)
    }
}

impl From<LoadFault> for Refusal {
    ghost from_gives = { λ fault refusal. IsOutOfMemory refusal ↔ LacksMemory fault };

    fn from(fault: LoadFault) -> Refusal {
        match fault {
            LoadFault::Format(error) => Refusal::from(error),
            LoadFault::Bounds(fault) => Refusal::from(fault),
        }
    }
}

impl From<CaseFault> for Refusal {
    ghost from_gives = { λ fault refusal. IsOutOfMemory refusal ↔ (fault ≡ cases.NoMemory) };

    fn from(fault: CaseFault) -> Refusal {
        Refusal::of(fault == CaseFault::NoMemory)
    }
}

impl From<PlayFault> for Refusal {
    ghost from_gives = { λ fault refusal. IsOutOfMemory refusal ↔ (fault ≡ plays.NoMemory) };

    fn from(fault: PlayFault) -> Refusal {
        Refusal::of(fault == PlayFault::NoMemory)
    }
}

impl From<StartFault> for Refusal {
    ghost from_gives = { λ fault refusal. IsOutOfMemory refusal ↔ (fault ≡ starts.NoMemory) };

    fn from(fault: StartFault) -> Refusal {
        Refusal::of(fault == StartFault::NoMemory)
    }
}

impl From<SurveyFault> for Refusal {
    ghost from_gives = { λ fault refusal.
        IsOutOfMemory refusal ↔ ((fault ≡ surveys.NoMemory) ⊎ (fault ≡ surveys.NoThread)) };

    fn from(fault: SurveyFault) -> Refusal {
        Refusal::of(fault != SurveyFault::Workers)
    }
}

impl From<RunFault> for Refusal {
    ghost from_gives = { λ fault refusal. IsOutOfMemory refusal ↔ (fault ≡ runs.Memory) };

    fn from(fault: RunFault) -> Refusal {
        Refusal::of(fault == RunFault::Memory)
    }
}

impl From<Refused> for Refusal {
    ghost from_gives = { λ refused refusal. IsOutOfMemory refusal ↔ (refused.fault ≡ runs.Memory) };

    fn from(refused: Refused) -> Refusal {
        Refusal::from(refused.fault)
    }
}
