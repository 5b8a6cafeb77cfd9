//! Takes the segments of sources into a folder, up to the first fault.

ghost use Rattle.std.specs.Prelude.{◌≡◌, ◌≢◌, [], ℕ, List, Option, map, IfErr, IfOk, IfSome};
ghost use Rattle.std.specs.Prelude.{OnOk};
ghost use Rattle.htl_segment.specs.Content.{Content};
ghost use Rattle.htl_device.specs.declared.whole.TheConstants.{MAX_READS};
ghost use Rattle.htl_segment.specs.Keepers.{Took};
ghost use Rattle.htl_device.specs.States.{AreOpen, IfKnown, IsOpen};
ghost use Rattle.htl_inputs.specs.Ends.{IsInput};
ghost use Rattle.htl_inputs.specs.Inputs.{HasBytes, IsReportedOfInput};
ghost use Rattle.htl_inputs.specs.Faults.{of_case};
ghost use Rattle.htl_inputs.specs.Readings.{AreRead, AskForReaders, readers_of};
ghost use Rattle.htl_inputs.specs.Reads.{IsRead, NamesOnly, NeverRead, NeverWrite, ReadsAll};
ghost use Rattle.htl_inputs.specs.Sources.{IsReportedOfSource};
ghost use Rattle.htl_main.specs.Folders.{GaveOwn, IsOfInput, TookInputs, TookToFault, folds_of};
ghost use Rattle.htl_main.specs.Folders.{TakesAll};
ghost use Rattle.htl_reading.specs.Sources.{AsksReaders};
ghost use Rattle.htl_main.specs.Folding.{AreFolded, IsHalfKnown, folding};
ghost use Rattle.htl_main.specs.Origins.{by_fault};

use crate::folding::Folded;
use crate::folding::folder::Folder;
use crate::loading::cases::unknown;
use crate::refused::Refused;
use htl_case::CaseFault;
use htl_command::{InputForm, Setting};
use htl_device::Parted;
use htl_event::NoMemory;
use htl_inputs::{CutEnd, RunFault, add_end, check_end};
use htl_reading::{EarlyEnd, early_end, read_digits, take_source};
use htl_segment::split;
use std::alloc::Global;
use std::mem;
use std::thread::Threads;

/// What was taken from all sources.
#[derive(Drop)]
pub(crate) struct Taken {
    /// How many segments they have. It stays at the greatest `u64` once it is there.
    pub segments: u64,
    /// Which of them end within another segment.
    pub cuts: Vec<CutEnd>,
}

/// Takes the segments of all sources, and then folds all that can be folded, even after a fault.
/// Returns what was taken or why the reading ended, and whether memory was refused for that fold.
pub(crate) fn take_all<Rt: Threads + Sync, R: Parted>(
    rt: &Rt,
    alloc: Global,
    setting: Setting,
    folded: &mut Folded,
    inputs: &mut [R],
) -> (Result<Taken, Refused>, Result<(), NoMemory>)
    requires ready { AreOpen (map R.state inputs.old) }
    ensures taken { (before : List Content) → AreFolded folded.old.analyst before
        → IfKnown (map R.state inputs.old) (λ texts.
        TakesAll (folding setting before texts (map R.state inputs.new))
        folded.old.analyst folded.new.analyst result.0 result.1) }
    ensures between { IfErr result.0 (λ refused. IsHalfKnown refused.fault refused.between) }
    ensures symbols { folded.new.symbols ≡ folded.old.symbols }
    ensures reading { AreRead setting.form.hex (map R.state inputs.old) (map R.state inputs.new)
        (by_fault result.0) }
    ensures readers { AskForReaders setting.form.hex setting.workers (map R.state inputs.old)
        (map R.state inputs.new) }
    ensures no_write { NeverWrite (by_fault result.0) }
{
    let analyst = mem::replace(&mut folded.analyst, None);
    let mut folder = Folder::new(alloc, analyst);
    let read = read_all(rt, alloc, setting, inputs, &mut folder);
    let far = folder.fold_by(rt, setting.workers);
    folded.analyst = folder.analyst;
    let cuts = match read {
        Ok(cuts) => cuts,
        Err(fault) => return (Err(Refused::from(fault)), far),
    };
    if let Some(fault) = folder.unfit {
        return (Err(half_known(fault)), far);
    }
    let taken = Taken {
        segments: folder.segments,
        cuts,
    };
    (Ok(taken), far)
}

/// Has a folder take the segments of all sources. The first source that can't be read to its end
/// ends the reading.
fn read_all<Rt: Threads + Sync, R: Parted>(
    rt: &Rt,
    alloc: Global,
    setting: Setting,
    sources: &mut [R],
    folder: &mut Folder,
) -> Result<Vec<CutEnd>, RunFault>
    requires ready { AreOpen (map R.state sources.old) }
    ensures reads { ReadsAll setting.form.hex setting.workers (map R.state sources.old)
        (map R.state sources.new)
        (λ inputs cuts. TookInputs folder.old folder.new setting.form inputs cuts.items)
        (TookToFault folder.old folder.new setting.form (map R.state sources.new)) result }
    ensures of_input { IfErr result IsOfInput }
{
    let mut cuts = Vec::new(alloc);
    for (place, source) in sources.iter_mut().enumerate() {
        let end = read_input(rt, alloc, setting, place as u64, source, folder)?;
        add_end(&mut cuts, place as u64, end)?;
    }
    Ok(cuts)
}

/// Has a folder take the segments of the source at a place, and says where the source ends within
/// another segment. What the folder holds is folded between reads.
fn read_input<Rt: Threads + Sync, R: Parted>(
    rt: &Rt,
    alloc: Global,
    setting: Setting,
    place: u64,
    source: &mut R,
    folder: &mut Folder,
) -> Result<Option<EarlyEnd>, RunFault>
    requires ready { IsOpen (R.state source.old) }
    ensures ok { IfOk result (λ end. IfSome (R.state source.old).remaining (λ text.
        (given : List Content) × IsInput setting.form text given end
        × Took folds_of folder.old folder.new given)) }
    ensures err { IfErr result (λ fault. IfSome (R.state source.old).remaining (λ text.
        IsReportedOfSource setting.form (R.state source.new).remaining (R.state source.new).ended
        place text fault)) }
    ensures kept { IfErr result (λ fault. IfSome (R.state source.old).remaining (λ text.
        fault ≢ RunFault.Memory → (given : List Content)
        × GaveOwn setting.form (R.state source.new).remaining text fault given
        × Took folds_of folder.old folder.new given)) }
    ensures of_input { IfErr result IsOfInput }
    ensures reading { IsRead setting.form.hex MAX_READS place (R.state source.old)
        (R.state source.new) result }
    ensures readers { AsksReaders (readers_of setting.form.hex setting.workers)
        (R.state source.old).remaining (R.state source.old) (R.state source.new) }
{
    if setting.form.hex {
        return match read_digits(alloc, source) {
            Ok(bytes) => take_bytes(alloc, setting.form, place, &bytes, folder),
            Err(fault) => Err(RunFault::from_digits(place, fault)),
        };
    }
    let fold = |folder: &mut Folder| -> Result<(), NoMemory>
        ensures { OnOk result (Took folds_of folder.old folder.new []) }
    { folder.fold_if_full(rt, setting.workers) };
    match take_source(rt, alloc, setting.workers, source, folder, &fold) {
        Ok(end) => check_end(setting.form, place, end),
        Err(fault) => Err(RunFault::from_source(place, fault)),
    }
}

/// Has a folder take the segments that the bytes of the input at a place encode.
fn take_bytes(
    alloc: Global,
    form: InputForm,
    place: u64,
    bytes: &[u8],
    folder: &mut Folder,
) -> Result<Option<EarlyEnd>, RunFault>
    ensures ok { (input : List ℕ) → HasBytes form.hex input bytes.now
        → IfOk result (λ end. (given : List Content) × IsInput form input given end
        × Took folds_of folder.old folder.new given) }
    ensures err { (input : List ℕ) → HasBytes form.hex input bytes.now
        → IfErr result (IsReportedOfInput form place input) }
    ensures kept { (input : List ℕ) (left : Option (List ℕ)) → HasBytes form.hex input bytes.now
        → IfErr result (λ fault. fault ≢ RunFault.Memory → (given : List Content)
        × GaveOwn form left input fault given
        × Took folds_of folder.old folder.new given) }
    ensures no_read { NeverRead result }
    ensures named { NamesOnly place result }
    ensures of_input { IfErr result IsOfInput }
{
    let rest = match split(alloc, folder, bytes) {
        Ok(rest) => rest,
        Err((offset, fault)) => return Err(RunFault::from_segment(place, offset, fault)),
    };
    let offset = (bytes.len() - rest.len()) as u64;
    check_end(form, place, early_end(offset, rest))
}

/// The fault for an unfit segment. It names neither of the two segments that conflict, since one of
/// them may be forgotten.
fn half_known(fault: CaseFault) -> Refused
    ensures fault { result.fault ≡ of_case fault }
    ensures between { IsHalfKnown result.fault result.between }
{
    Refused {
        fault: RunFault::from(fault),
        between: unknown(fault),
    }
}
