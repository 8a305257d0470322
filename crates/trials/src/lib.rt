// Trials of a decoder against the second one: on the cases of a list as they stand, joined and damaged.
#![tactic(auto)]

ghost use Rattle.std.specs.Prelude.{◌≡◌, ◌≤◌, ℕ, Bool, IfOk, List};
ghost use Rattle.cases.specs.Lists.{count_of_cases};
ghost use Rattle.cases.specs.declared.form.Case.{Case};
ghost use Rattle.second.specs.declared.messages.Outcome.{Outcome};

use cases::{Case, Cases};
use reporting::{Detail, Tally, is_as_told, show_case, show_difference, show_tally};
use second::{Day, Outcome};
use std::alloc::{AllocError, Global};

// A decoder that is held to the second one. A trait and no closure, for which `try_list` would need a `requires`.
pub trait Peer {
    // Which outcome it gives for a text under the date and the room of a case.
    ghost gives: { Self → Case → List ℕ → Outcome → Bool };

    // Whether it gives this one.
    fn agrees(
        &self,
        heap: Global,
        case: &Case,
        text: &[u8],
        outcome: &Outcome,
    ) -> Result<bool, AllocError>
        ensures { IfOk result (λ same. same ≡ gives self.now case.now text.now outcome.now) };
}

// A peer, the runtime of its trials, and how much of them is printed.
#[derive_where(Clone, Copy)]
struct Trials<'a, P: Peer> {
    rt: &'a HostRuntime,
    peer: &'a P,
    detail: Detail,
}

fn decoded(heap: Global, case: &Case, text: &[u8]) -> Result<Outcome, AllocError> {
    let today = Day {
        year: case.year,
        month: case.month,
        day: case.day,
    };
    second::decode(heap, text, today, case.room)
}

impl<'a, P: Peer> Trials<'a, P> {
    // A case as it stands.
    fn try_case(&self, case: &Case) -> anyhow::Result<Tally>
        ensures { IfOk result (λ t. t.texts ≡ 1) }
    {
        let heap = self.rt.alloc();
        let text = case.text.as_slice();
        let outcome = decoded(heap, case, text)?;
        let alike = self.peer.agrees(heap, case, text, &outcome)?;
        let came = telling::rows(heap, &outcome)?;
        let as_told = is_as_told(self.rt, case, came.as_slice())?;
        let verdict = telling::verdict(alike, as_told);
        show_case(self.rt, case.name.as_str(), &outcome, verdict, self.detail)?;
        Ok(Tally::of(&outcome, alike && as_told))
    }

    // Another text under the date and the room of a case.
    fn try_text(&self, case: &Case, text: &[u8], place: usize) -> anyhow::Result<Tally> {
        let heap = self.rt.alloc();
        let outcome = decoded(heap, case, text)?;
        let alike = self.peer.agrees(heap, case, text, &outcome)?;
        if !alike {
            show_difference(self.rt, case.name.as_str(), text, place)?;
        }
        Ok(Tally::of(&outcome, alike))
    }

    // A case with a byte damaged in four ways, and with a second byte damaged besides.
    fn try_harms(&self, case: &Case, at: usize) -> anyhow::Result<Tally> {
        let heap = self.rt.alloc();
        let mut sum = Tally::default();
        let text = case.text.as_slice();
        let other = at.wrapping_mul(13).wrapping_add(7) % text.len().max(1);
        for round in 0..4usize {
            let once = cases::damaged(heap, text, at, cases::harm_at(at, round))?;
            sum = sum + self.try_text(case, once.as_slice(), at)?;
            let harm = cases::harm_at(other, round.saturating_add(1));
            let twice = cases::damaged(heap, once.as_slice(), other, harm)?;
            sum = sum + self.try_text(case, twice.as_slice(), at)?;
        }
        Ok(sum)
    }

    // A case with some of its bytes damaged, spread over its text.
    fn try_damaged(&self, case: &Case) -> anyhow::Result<Tally> {
        let mut sum = Tally::default();
        let stride = case.text.len() / 40 + 1;
        for at in (0..case.text.len()).step_by(stride) {
            sum = sum + self.try_harms(case, at)?;
        }
        Ok(sum)
    }

    // The text of a case with another text behind it.
    fn try_joined(&self, case: &Case, behind: &[u8]) -> anyhow::Result<Tally> {
        let mut text = case.text.as_slice().to_vec(self.rt.alloc())?;
        text.extend_from_slice(behind)?;
        self.try_text(case, text.as_slice(), case.text.len())
    }
}

// All cases of a list, as they stand, joined and damaged. None is left out.
pub fn try_list<P: Peer>(
    rt: &HostRuntime,
    peer: &P,
    list: &str,
    detail: Detail,
) -> anyhow::Result<Tally>
    ensures { IfOk result (λ t. count_of_cases list.now ≤ t.texts) }
{
    let trials = Trials { rt, peer, detail };
    let mut whole = Tally::default();
    let mut harmed = Tally::default();
    let mut cases = Cases::new(list);
    let mut ahead = cases.next_case(rt.alloc())?;
    while let Some(case) = ahead {
        ahead = cases.next_case(rt.alloc())?;
        // Behind the last case stands no text.
        let behind: &[u8] = match &ahead {
            Some(next) => next.text.as_slice(),
            None => &[],
        };
        whole = whole + trials.try_case(&case)?;
        harmed = harmed + trials.try_joined(&case, behind)?;
        harmed = harmed + trials.try_damaged(&case)?;
    }
    show_tally(rt, "texts", whole)?;
    show_tally(rt, "joined and damaged texts", harmed)?;
    Ok(whole + harmed)
}
