//! Files that are replaced.

ghost use Rattle.std.specs.Prelude.{◌≡◌, false, true, OnOk, OnErr, IfErr};
ghost use Rattle.std.specs.List.{list_any};
ghost use Rattle.replaced_files.specs.Steps.{IsFollowed, all_done, newest};
ghost use Rattle.replaced_files.specs.Deeds.{fails_at};
ghost use Rattle.replaced_files.specs.Plans.{IsUnreplaced, exchanging, plan_at, plan_from, replacing_plan, stays};

use crate::fault::ReplaceFault;
use crate::files::Files;
use std::io;

/// What is to become of a file.
#[derive(Drop)]
pub enum Fate {
    /// It cannot be what all are to become.
    Stays,
    /// It is so already.
    Stands,
    /// These bytes are to stand under its name.
    Becomes(Vec<u8>),
}

/// Replaces files, the first first, where none of them stays: new bytes are on disk before they get the name of a file, and the name is
/// on disk before the next file is begun.
///
/// # Errors
/// `SomeStay`, where nothing was done to any; or the first call of the system that failed: nothing is done after it.
#[tactic(auto, using(crate::proofs::Each::all_followed))]
pub fn replace_all<F: Files>(files: &mut F, fates: &[Fate]) -> Result<(), ReplaceFault>
    ensures each { IsFollowed (replacing_plan fates.now) (F.deeds files.old) (F.deeds files.new) }
    ensures refused { IfErr result (λ why. IsUnreplaced fates.now why (F.deeds files.old) (F.deeds files.new)) }
    ensures done { OnOk result ((list_any stays fates.now ≡ false)
        × (F.deeds files.new ≡ all_done (replacing_plan fates.now) (F.deeds files.old))) }
{
    if some_stay(fates) {
        return Err(ReplaceFault::SomeStay);
    }
    match replace_each(files, fates) {
        Ok(()) => Ok(()),
        Err((place, error)) => Err(ReplaceFault::Io(place, error)),
    }
}

/// Whether one of them cannot be what all are to become.
pub fn some_stay(fates: &[Fate]) -> bool
    ensures { result ≡ list_any stays fates.now }
{
    fates.iter().any(stays)
}

/// Whether a file cannot be what all are to become.
fn stays(fate: &Fate) -> bool
    ensures { result ≡ stays fate.now }
{
    match fate {
        Fate::Stays => true,
        Fate::Stands => false,
        Fate::Becomes(_) => false,
    }
}

/// Replaces files, the first first; at a failure, the place of the file that it was for.
#[tactic(auto, using(crate::proofs::Each::broken_off))]
fn replace_each<F: Files>(files: &mut F, fates: &[Fate]) -> Result<(), (usize, io::Error)>
    ensures each { IsFollowed (plan_from 0 fates.now) (F.deeds files.old) (F.deeds files.new) }
    ensures failed { IfErr result (λ why. newest (fails_at why.0) (F.deeds files.new) ≡ true) }
    ensures done { OnOk result (F.deeds files.new ≡ all_done (plan_from 0 fates.now) (F.deeds files.old)) }
{
    for (place, fate) in fates.iter().enumerate() {
        if let Err(error) = replace(files, place, fate) {
            return Err((place, error));
        }
    }
    Ok(())
}

/// Replaces the file at a place, where there are bytes for it.
fn replace<F: Files>(files: &mut F, place: usize, fate: &Fate) -> io::Result<()>
    ensures each { IsFollowed (plan_at place fate.now) (F.deeds files.old) (F.deeds files.new) }
    ensures failed { OnErr result (newest (fails_at place) (F.deeds files.new) ≡ true) }
    ensures done { OnOk result (F.deeds files.new ≡ all_done (plan_at place fate.now) (F.deeds files.old)) }
{
    match fate {
        Fate::Stays => Ok(()),
        Fate::Stands => Ok(()),
        Fate::Becomes(bytes) => exchange(files, place, bytes.as_slice()),
    }
}

/// Has new bytes of the file at a place on disk, then gives them its name, then has that on disk.
fn exchange<F: Files>(files: &mut F, place: usize, bytes: &[u8]) -> io::Result<()>
    ensures each { IsFollowed (exchanging place bytes.now) (F.deeds files.old) (F.deeds files.new) }
    ensures failed { OnErr result (newest (fails_at place) (F.deeds files.new) ≡ true) }
    ensures done { OnOk result (F.deeds files.new ≡ all_done (exchanging place bytes.now) (F.deeds files.old)) }
{
    files.copy(place, bytes)?;
    files.exchange(place)?;
    files.sync_names(place)
}
