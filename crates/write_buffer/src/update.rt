//! A buffer as an update.

ghost use Rattle.std.specs.Prelude.{◌≡◌};
ghost use Rattle.write_buffer.specs.Buffered.{AreOut, written_of};

use crate::buffer::WriteBuffer;
use cal_base::UpdateWords;
use frame_pool::FramePool;
use std::marker::Model;

/// What a buffer holds, with the pool that has its frames.
#[derive(Drop)]
pub struct BufferView<'a> {
    pool: &'a FramePool,
    buffer: &'a WriteBuffer,
}

impl<'a> Model for BufferView<'a> {
    ghost use Rattle.std.specs.Coded.{coded_ℕ, coded_ℤ};
    ghost use Rattle.std.specs.FinMap.{code};
    ghost use Rattle.cal_base.specs.Updates.{Written};
    ghost use Rattle.write_buffer.specs.Buffered.{AreOut, written_of};

    ghost Value = { Written };

    ghost coded = { code coded_ℕ coded_ℤ };

    ghost view = { λ v. written_of v.pool.now v.buffer.now };

    ghost invariant = { λ v. AreOut v.pool.now v.buffer.now.frames };
}

impl<'a> BufferView<'a> {
    /// The entries of a buffer, whose frames are out of this pool.
    pub fn of(pool: &'a FramePool, buffer: &'a WriteBuffer) -> BufferView<'a>
        requires { AreOut pool.now buffer.now.frames }
        ensures { result ≡ written_of pool.now buffer.now }
    {
        BufferView { pool, buffer }
    }
}

impl UpdateWords for BufferView<'_> {
    ghost update = { λ v. v };

    fn next_from(&self, from: u32) -> Option<(u32, i64)> {
        self.buffer.next(self.pool, from)
    }
}
