// Reading a rope.
ghost use Rattle.std.specs.Prelude.{◌≡◌, ◌≤◌, length, drop, IsOk, IfOk, IfErr};
ghost use Rattle.std.specs.List.{concat};
ghost use Rattle.bytes.specs.Unread.{IsChunkOf};
ghost use Rattle.wire_base.specs.Rope.{AllFilled, rope_bytes, all_segments, first_segment, left_segments};

use super::Rope;
use bytes::{Buf, Bytes};
use std::collections::VecDeque;
use std::marker::Model;

/// The bytes of a rope, to be read from the front. A contract sees the segments that are left, the
/// first of them from its first unread byte on.
#[derive(Drop)]
pub struct RopeBuf {
    segments: VecDeque<Bytes>,
    remaining: usize,
}

impl Model for RopeBuf {
    ghost use Rattle.std.specs.Prelude.{◌≡◌, ℕ, List, length};
    ghost use Rattle.std.specs.List.{concat};
    ghost use Rattle.wire_base.specs.Rope.{AllFilled};

    ghost Value = { List (List ℕ) };

    ghost view = { λ b. b.segments.items };

    ghost invariant = { λ b. (b.remaining ≡ length (concat b.segments.items))
        × AllFilled b.segments.items };
}

impl RopeBuf {
    /// Reads the rope's segments where they are. Where memory is refused the rope comes back as it
    /// was.
    pub fn from_rope(rope: Rope) -> Result<RopeBuf, Rope>
        ensures segments { IfOk result (λ buf. buf ≡ all_segments rope) }
        ensures bytes { IfOk result (λ buf. concat buf ≡ rope_bytes rope) }
        ensures err { IfErr result (λ given. given ≡ rope) }
        ensures whole { length rope.tail ≡ 0 → IsOk result }
    {
        let remaining = rope.len();
        let segments = rope.into_segments()?;
        Ok(RopeBuf {
            segments: VecDeque::from_vec(segments),
            remaining,
        })
    }
}

impl Buf for RopeBuf {
    ghost unread = { concat };

    /// In constant time.
    fn remaining(&self) -> usize {
        self.remaining
    }

    /// What is left of the first segment.
    fn chunk(&self) -> &[u8]
        ensures chunk { IsChunkOf result.now (concat self.now) }
        ensures first { result.now ≡ first_segment self.now }
    {
        match self.segments.front() {
            Some(first) => first.as_slice(),
            None => &[],
        }
    }

    /// Takes time for each segment that is read to its end, and not for its bytes.
    fn advance(&mut self, cnt: usize)
        requires { cnt ≤ length (concat self.old) }
        ensures value { concat self.new ≡ drop cnt (concat self.old) }
        ensures segments { self.new ≡ left_segments cnt self.old }
    {
        drop_front(&mut self.segments, cnt);
        self.remaining -= cnt;
    }
}

// Drops the first bytes, and the segments that they are all of.
fn drop_front(segments: &mut VecDeque<Bytes>, cnt: usize)
    requires some { cnt ≤ length (concat segments.old.items) }
    requires filled { AllFilled segments.old.items }
    ensures { segments.new.items ≡ left_segments cnt segments.old.items }
{
    let mut left = cnt;
    while left > 0 {
        let Some(first) = segments.front_mut() else {
            unreachable!()
        };
        let len = first.len();
        if left < len {
            first.advance(left);
            return;
        }
        segments.pop_front();
        left -= len;
    }
}
