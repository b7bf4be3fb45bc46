ghost use Rattle.std.specs.Prelude.{◌≡◌, ◌<◌, ◌≤◌, [], ◌∷◌, length, IfOk};
ghost use Rattle.lease_rows.specs.Effects.{Adds, cleared_effects, cleared_row_effects};

use crate::entries::{Entry, is_stale};
use lease_spec::{Effect, EffectList, Phase, Row};
use std::alloc::Global;
use std::marker::Model;
use wire_core::NoMemory;

/// The effects of a slot so far, with room for those to come.
#[derive(Debug, Drop)]
pub struct Effects {
    effects: Vec<Effect>,
}

impl Model for Effects {
    ghost use Rattle.std.specs.Prelude.{◌-◌, vec_len, vec_capacity};
    ghost use Rattle.lease_rows.specs.Effects.{Told};

    ghost Value = { Told };

    ghost view = { λ e. record { effects = e.effects.items; room = vec_capacity e.effects - vec_len e.effects } };
}

impl Effects {
    /// No effects, with room for so many.
    pub fn with_room(alloc: Global, room: usize) -> Result<Effects, NoMemory>
        ensures none { IfOk result (λ e. e.effects ≡ []) }
        ensures room { IfOk result (λ e. room ≤ e.room) }
    {
        let effects = Vec::with_capacity(alloc, room)?;
        Ok(Effects { effects })
    }

    /// One more effect.
    pub fn push(&mut self, effect: Effect)
        requires { 0 < self.old.room }
        ensures { Adds self.old self.new (effect ∷ []) }
    {
        self.effects.push_reserved(effect);
    }

    /// All effects, in order.
    pub fn into_list(self) -> EffectList
        ensures { result ≡ self.effects }
    {
        let Effects { effects } = self;
        EffectList::from_vec(effects)
    }
}

/// Tells of a live entry's row that a raised boot ends.
fn tell_entry(entry: Entry, agent: u16, boot: u64, effects: &mut Effects)
    requires { length (cleared_row_effects agent boot entry) ≤ effects.old.room }
    ensures { Adds effects.old effects.new (cleared_row_effects agent boot entry) }
{
    if entry.live && is_stale(entry.row, agent, boot) {
        effects.push(Effect::Cleared {
            row: Row {
                phase: Phase::Freeing,
                ..entry.row
            },
        });
    }
}

/// Tells of each row that a raised boot of the agent ends.
pub fn tell_cleared(entries: &[Entry], agent: u16, boot: u64, effects: &mut Effects)
    requires { length (cleared_effects agent boot entries.now) ≤ effects.old.room }
    ensures { Adds effects.old effects.new (cleared_effects agent boot entries.now) }
{
    for entry in entries {
        tell_entry(*entry, agent, boot, effects);
    }
}
