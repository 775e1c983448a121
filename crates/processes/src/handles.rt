// One process by itself: its state and its handles.
ghost use Rattle.std.specs.Prelude.{◌≡◌, ◌-◌, ◌<◌, Some, None, length, slice_index_or, slice_set, is_none, find, if◌then◌else◌, IfSome};
ghost use Rattle.std.specs.List.{range_with_len, list_any};
ghost use Rattle.turns.specs.World.{is_free, is_running, is_left, left_with, leads_to};
ghost use Rattle.processes.specs.Changes.{with_handles};

use crate::Process;
use turns::vocabulary::State;

impl Process {
    #[tactic(auto, unfolding(turns::specs::World::is_free))]
    pub(crate) fn is_free(&self) -> bool
        ensures { result ≡ is_free self.now.state }
    {
        self.state == State::Free
    }

    #[tactic(auto, unfolding(turns::specs::World::is_running))]
    pub(crate) fn runs(&self) -> bool
        ensures { result ≡ is_running self.now.state }
    {
        self.state == State::Runs
    }

    #[tactic(auto, unfolding(turns::specs::World::is_left))]
    pub(crate) fn has_left(&self) -> bool
        ensures { result ≡ is_left self.now.state }
    {
        matches!(self.state, State::Left(_))
    }

    // The number with which it has left, if it has.
    #[tactic(auto, unfolding(turns::specs::World::is_left, turns::specs::World::left_with))]
    pub(crate) fn left_with(&self) -> Option<u8>
        ensures { result ≡ (if is_left self.now.state then Some (left_with self.now.state) else None) }
    {
        match self.state {
            State::Left(n) => Some(n),
            _ => None,
        }
    }

    // What handle `h` leads to; there are no handles past the last.
    pub(crate) fn handle(&self, h: usize) -> Option<u8>
        ensures { result ≡ slice_index_or self.now.handles h None }
    {
        self.handles.get(h).copied().flatten()
    }

    // Whether handle `h` leads to the open thing `k`.
    #[tactic(auto, unfolding(turns::specs::World::leads_to))]
    fn leads_to(&self, h: usize, k: usize) -> bool
        ensures { result ≡ leads_to k (slice_index_or self.now.handles h None) }
    {
        match self.handles.get(h) {
            Some(Some(i)) => usize::from(*i) == k,
            _ => false,
        }
    }

    // Whether one of the first `count` handles leads to the open thing `k`.
    pub(crate) fn holds(&self, k: usize, count: usize) -> bool
        ensures { result ≡ list_any (λ h. leads_to k (slice_index_or self.now.handles h None)) (range_with_len 0 count) }
    {
        (0..count).any(|h| self.leads_to(h, k))
    }

    // Whether handle `h` leads to nothing.
    pub(crate) fn is_unused(&self, h: usize) -> bool
        ensures { result ≡ is_none (slice_index_or self.now.handles h None) }
    {
        self.handle(h).is_none()
    }

    // The lowest of the first `count` handles, from `from` on, that leads to nothing.
    pub(crate) fn free_handle(&self, from: usize, count: usize) -> Option<usize>
        ensures within { IfSome result (λ h. h < count) }
        ensures seen { result ≡ find (λ h. is_none (slice_index_or self.now.handles h None)) (range_with_len from (count - from)) }
    {
        (from..count).find(|&h| self.is_unused(h))
    }

    // Handle `h` leads to this from now on.
    pub(crate) fn set_handle(&mut self, h: usize, to: Option<u8>)
        requires there { h < 16 }
        ensures within { h < length self.old.handles }
        ensures set { self.new ≡ with_handles self.old (slice_set self.old.handles h to) }
    {
        self.handles[h] = to;
    }
}
