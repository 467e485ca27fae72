// The bytes of the time.
#![tactic(auto, using(std::proofs::Common::append_assoc))]

ghost use Rattle.std.specs.Prelude.{◌≡◌, ℕ, ◌++◌, nat_lt, length, OnOk};
ghost use Rattle.std.specs.List.{AllAdjacentBelow};
ghost use Rattle.sa_spaces.specs.Workload.{IsBefore};
ghost use Rattle.sa_kernel_model.specs.Closing.{first_space};
ghost use Rattle.sa_core.specs.View.{machine};
ghost use Rattle.sa_outlook.specs.Outlook.{beat, is_to_come, until};
ghost use Rattle.sa_package_keys.specs.Codes.{number, number_or_none};

use crate::keyed::Keyed;
use sa_core::Core;
use sa_package_keys::put_number;
use sa_spaces::Evict;
use std::alloc::AllocError;

/// Adds the bytes of the time: the space that is served first, how far the slice has gone, and the event while an
/// eviction is to come. Fails only where memory runs out.
pub(crate) fn put_time<U: Keyed>(core: &Core<U>, key: &mut Vec<u8>) -> Result<(), AllocError>
    ensures { let m = machine core.now in OnOk result (key.new.items ≡ key.old.items
        ++ (number (first_space m.kernel m.event)
        ++ number (beat m.workload.slice m.event)
        ++ number_or_none (until m.event m.workload.evictions))) }
{
    let event = core.events();
    put_number(key, u64::from(core.kernel().first_space(event)))?;
    put_number(key, beat_of(u64::from(core.workload().slice()), event))?;
    put_until(core.workload().evictions(), event, key)?;
    Ok(())
}

// How far the slice has gone.
fn beat_of(slice: u64, event: u64) -> u64
    ensures { result ≡ beat slice event }
{
    if slice == 0 { 0 } else { event % slice }
}

// Adds the bytes of the event, while one of the evictions is to come.
fn put_until(evictions: &[Evict], event: u64, key: &mut Vec<u8>) -> Result<(), AllocError>
    requires { AllAdjacentBelow IsBefore evictions.now (length evictions.now) }
    ensures { OnOk result (key.new.items ≡ key.old.items ++ number_or_none (until event evictions.now)) }
{
    if event < last_eviction(evictions) {
        put_number(key, event + 1)
    } else {
        put_number(key, 0)
    }
}

// The event of the last eviction, 0 without one.
fn last_eviction(evictions: &[Evict]) -> u64
    requires { AllAdjacentBelow IsBefore evictions.now (length evictions.now) }
    ensures { (event : ℕ) → is_to_come event evictions.now ≡ nat_lt event result }
{
    match evictions.last() {
        None => 0,
        Some(last) => last.event,
    }
}
