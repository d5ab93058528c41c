//! The pool.

ghost use Rattle.std.specs.Prelude.{◌≡◌, ◌+◌, ◌≤◌, length, IfOk, IsSome, MatchOption, None, Some, replicate, slice_set};
ghost use Rattle.std.specs.Borrow.{sem};
ghost use Rattle.frame_pool.specs.Pool.{frame_at, free_count, IsOut, NoneIsFree, TakesLowest};
ghost use Rattle.frame_pool.specs.Held.{IsFirstFree};
ghost use Rattle.frame_pool.specs.Lending.{LendsWords};

use crate::frame::Frame;
use cal_terms::NoMemory;
use std::alloc::Global;
use std::marker::Model;

/// Frames of 64 words each, up to 8,192. All of them are taken from memory when the pool is made.
#[derive(Drop)]
pub struct FramePool {
    frames: Vec<[i64; 64]>,
    out: Vec<bool>,
    // Every frame below this one is out.
    from: u32,
}

impl Model for FramePool {
    ghost use Rattle.frame_pool.specs.Pool.{Pool};
    ghost use Rattle.frame_pool.specs.Held.{held, IsHeld};

    ghost Value = { Pool };

    ghost view = { λ p. held p.out.items p.frames.items };

    ghost invariant = { λ p. IsHeld p.out.items p.frames.items p.from };
}

/// The first frame from this one on that is not out, or the number of frames.
fn first_free(out: &[bool], from: u32) -> u32
    requires small { length out.now ≤ 8192 }
    requires from { from ≤ length out.now }
    ensures { IsFirstFree out.now from result }
{
    let frames = out.len() as u32;
    for q in from..frames {
        if !out[q as usize] {
            return q;
        }
    }
    frames
}

impl FramePool {
    /// A pool of n frames, 8,192 at most. All are free.
    pub fn make(alloc: Global, n: u32) -> Result<FramePool, NoMemory>
        requires { n ≤ 8192 }
        ensures free { IfOk result (λ pool. pool ≡ replicate n None) }
        ensures count { IfOk result (λ pool. free_count pool ≡ n) }
    {
        let frames = vec![in alloc; [0i64; 64]; n as usize]?;
        let out = vec![in alloc; false; n as usize]?;
        Ok(FramePool {
            frames,
            out,
            from: 0,
        })
    }

    /// Takes the lowest free frame. What its words are is not said.
    pub fn take(&mut self) -> Option<Frame>
        ensures { MatchOption result (NoneIsFree self.old × (self.new ≡ self.old)) (TakesLowest self.old self.new) }
    {
        let f = first_free(&self.out, self.from);
        self.from = f;
        if f as usize == self.out.len() {
            return None;
        }
        self.out[f as usize] = true;
        Some(Frame { number: f })
    }

    /// Takes a frame back, which is free again.
    pub fn give(&mut self, f: Frame)
        requires { IsOut self.old f }
        ensures free { self.new ≡ slice_set self.old f None }
        ensures count { free_count self.new ≡ free_count self.old + 1 }
    {
        let Frame { number } = f;
        self.out[number as usize] = false;
        self.from = self.from.min(number);
    }

    /// The 64 words of a frame.
    pub fn words(&self, f: &Frame) -> &[i64; 64]
        requires { IsOut self.now f.now }
        ensures { frame_at self.now f.now ≡ Some result.now }
    {
        &self.frames[f.number as usize]
    }

    /// The 64 words of a frame, to be written.
    pub fn words_mut(&mut self, f: &Frame) -> &mut [i64; 64]
        requires { IsOut self.old f.now }
        ensures* lends { sem 𝓛 (LendsWords self.entry f.now result) }
        ensures words { frame_at self.old f.now ≡ Some result.now }
    {
        &mut self.frames[f.number as usize]
    }
}
