// Whether a stored sheet is sound: it holds no number that a sheet's own refusals 11, 13, 15 or 16 would turn away.
ghost use Rattle.std.specs.Prelude.{◌≡◌, true, ◌≤◌, ◌<◌};
ghost use Rattle.meaning.specs.Limits.{events_most, nodes_most};
ghost use Rattle.sheet.specs.Sound.{sound_event, sound_node, sound};

use crate::Sheet;
use faults::ranges;

// A stored sheet that is sound, lent: what rows, windows and images are judged by.
#[derive(Clone, Copy)]
pub struct SoundSheet<'a> {
    pub sheet: &'a Sheet,
    pub ghost sounds: { sound sheet.now ≡ true },
}

impl Sheet {
    // Event e needs lower ones only, and conflicts with events of the sheet other than itself.
    #[tactic(auto, using(crate::proofs::Tables::one_shl_wide), unfolding(crate::specs::Sound::sound_event))]
    fn event_sound(&self, e: usize) -> bool
        requires { (e < self.now.events) × (self.now.events ≤ events_most) }
        ensures { result ≡ sound_event self.now.needs self.now.conflicts self.now.events e }
    {
        let needs = u64::from(self.needs[e]);
        let conflicts = u64::from(self.conflicts[e]);
        needs < 1 << e && conflicts < 1 << self.events && !bits::bit(conflicts, e)
    }

    // Node n is of a known kind, names events of the sheet, and uses earlier nodes only.
    #[tactic(auto, unfolding(crate::specs::Sound::sound_node))]
    fn node_sound(&self, n: usize) -> bool
        requires { n < nodes_most }
        ensures { result ≡ sound_node self.now.node self.now.events n }
    {
        let v = self.node[n];
        usize::from(v.kind) < limits::NODE_KINDS
            && ranges::node_ok(v.kind, v.left, v.right, self.events, n)
    }

    pub fn is_sound(&self) -> bool
        ensures { result ≡ sound self.now }
    {
        (1..=limits::EVENTS).contains(&self.events)
            && (1..=limits::NODES).contains(&self.nodes)
            && (0..self.events).all(|e| self.event_sound(e))
            && (0..self.nodes).all(|n| self.node_sound(n))
    }
}
