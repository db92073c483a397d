// What the rounds carry: first responses, responses and the commitments of the other sides.
use crate::Signer;
use crate::manner::{Manner, Vector};
use crate::round::{Desk, Round};
use crate::trouble::Trouble;
use std::alloc::Global;
use suite::Suite;

// What `part` gives of the round and the challenge that each place carries, one behind the other.
fn carried<C: Copy, F: Fn(usize, &Round, C) -> Result<Vec<u8>, Trouble>>(
    heap: Global,
    manner: Manner,
    rounds: &[Round],
    challenges: &[C],
    part: F,
) -> Result<Vec<u8>, Trouble>
    requires { F.IsAlwaysCallable part }
{
    let mut out = Vec::new(heap);
    let first = rounds.iter().zip(challenges).next();
    for (i, own) in rounds.iter().zip(challenges).enumerate() {
        let (round, challenge) = match first {
            Some(first) if manner == Manner::CopiedRound && i == 1 => first,
            _ => own,
        };
        let bytes = part(i, round, *challenge)?;
        out.extend_from_slice(bytes.as_slice())?;
    }
    Ok(out)
}

impl<S: Suite> Signer<'_, S> {
    // t1 ‖ e1 of every round.
    pub(crate) fn first_responses(
        &self,
        desk: &Desk,
        rounds: &[Round],
        alphas: &[u8],
    ) -> Result<Vec<u8>, Trouble> {
        carried(self.heap, desk.manner, rounds, alphas, |i, round, alpha| {
            self.first_response(desk, i, round, alpha)
        })
    }

    // r0 where the bit is 0, and r1 where it is 1, of every round.
    pub(crate) fn responses(
        &self,
        desk: &Desk,
        rounds: &[Round],
        bits: &[bool],
    ) -> Result<Vec<u8>, Trouble> {
        carried(self.heap, desk.manner, rounds, bits, |i, round, bit| {
            let shown = if bit { &round.r1 } else { &round.r0 };
            let v = shown.clone()?;
            Ok(desk.manner.write(self.heap, i, Vector::Response, v)?)
        })
    }

    // The commitment of the other side, of every round.
    pub(crate) fn others(
        &self,
        desk: &Desk,
        rounds: &[Round],
        bits: &[bool],
    ) -> Result<Vec<u8>, Trouble> {
        carried(self.heap, desk.manner, rounds, bits, |i, round, bit| {
            let swapped = desk.manner == (Manner::SwappedCommitment { round: i });
            let other = if bit != swapped { &round.c0 } else { &round.c1 };
            Ok(Vec::from_slice(self.heap, other)?)
        })
    }
}
