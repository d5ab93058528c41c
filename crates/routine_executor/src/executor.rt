//! What executes routines: a machine over pages that it fetches and a buffer for what a routine writes.

ghost use Rattle.std.specs.Prelude.{◌≡◌, ◌<◌, ◌≤◌, ◌^◌, ◌*◌, [], IfOk, Some, length, slice_get};
ghost use Rattle.std.specs.FinMap.{empty};
ghost use Rattle.cal_base.specs.Answers.{answer_by};
ghost use Rattle.cal_base.specs.Claims.{size_of};
ghost use Rattle.cal_base.specs.Memory.{kinds_of};
ghost use Rattle.cal_base.specs.Pages.{page_size, version_of};
ghost use Rattle.cal_base.specs.Updates.{IsBelow, IsNextFrom};
ghost use Rattle.machine_meaning.specs.Meaning.{module_memory};
ghost use Rattle.shared_pages.specs.Cached.{Serves};
ghost use Rattle.write_buffer.specs.Buffered.{written_of};
ghost use Rattle.write_buffer.specs.Joined.{Joined};
ghost use Rattle.routine_executor.specs.Executing.{MayExecute, HoldsFrames, cache_of, Asks};

use crate::job::Job;
use crate::place::place_of;
use cal_base::{Image, JobName, NoMemory, PAGE, RoutineEnd, UpdateWords};
use code_verify::Verified;
use frame_pool::FramePool;
use routine_vm::Machine;
use shared_pages::PageCache;
use std::alloc::Global;
use std::marker::Model;
use write_buffer::{View, WriteBuffer};

/// A machine, a pool of frames, and a cache and a write buffer that have their frames in it. The frames are given back at the end.
pub struct Executor {
    machine: Machine,
    pool: FramePool,
    cache: PageCache,
    buffer: WriteBuffer,
}

impl Model for Executor {
    ghost use Rattle.write_buffer.specs.Buffered.{written_of};
    ghost use Rattle.routine_executor.specs.Executing.{Executing, HoldsFrames};

    ghost Value = { Executing };

    ghost use Rattle.std.specs.Coded.{codes, coded_ℕ, coded_ℤ};
    ghost use Rattle.std.specs.FinMap.{code as map_code};
    ghost use Rattle.std.specs.Ordering.{nat_cmp};

    ghost coded = { Prim.hlevel (codes, map_code {R = nat_cmp} coded_ℕ coded_ℤ) };

    ghost view = { λ e. record {
      words = e.buffer.kinds;
      fetched = e.cache.fetched;
      kept = record { size = e.cache.size; frames = e.pool; pages = e.cache.kept };
      written = written_of e.pool e.buffer;
    } };

    ghost invariant = { λ e. HoldsFrames e.pool e.cache e.buffer };
}

/// The machine runs routine k of the job over the job's image, whose pages the cache keeps. What the routine wrote is in the buffer.
fn run_over<N: JobName>(
    machine: &mut Machine,
    pool: &mut FramePool,
    cache: &mut PageCache,
    buffer: &mut WriteBuffer,
    job: &Job<'_, N>,
    k: u32,
) -> RoutineEnd
    requires number { k < size_of N.job }
    requires kinds { kinds_of job.now.image.now.memory ≡ kinds_of (module_memory job.now.code.now) }
    requires joined { Joined pool.old cache.old buffer.old job.now.image.now }
    requires cleared { written_of pool.old buffer.old ≡ empty }
    ensures answer { slice_get N.job.answers k ≡ Some (answer_by result (written_of pool.new buffer.new)) }
    ensures joined { Joined pool.new cache.new buffer.new job.now.image.now }
    ensures size { cache.new.size ≡ cache.old.size }
{
    let _code = job.code.module();
    let place = place_of(job.widths, k);
    let mut view = View::join(pool, cache, buffer, job.image);
    machine.run_routine(
        job.code,
        job.first_block + place.block,
        place.width,
        place.id,
        job.fuel,
        &mut view,
    )
}

/// The cache keeps page p of the image, beside a buffer in the same pool.
fn fetch_over(
    pool: &mut FramePool,
    cache: &mut PageCache,
    buffer: &WriteBuffer,
    image: &Image,
    p: u32,
)
    requires range { page_size * p < length image.now.memory }
    requires joined { Joined pool.old cache.old buffer.now image.now }
    ensures serves { Serves cache.old cache.new p (version_of image.now p) }
    ensures joined { Joined pool.new cache.new buffer.now image.now }
{
    cache.prefetch(pool, image, p);
}

/// Gives the frames of a cache and of a buffer back.
fn give_both(cache: PageCache, buffer: WriteBuffer, pool: &mut FramePool)
    requires { HoldsFrames pool.old cache buffer }
{
    cache.give_back(pool);
    buffer.give_back(pool);
}

impl Executor {
    /// An executor for a run of this code, on an image that has the words of the code's module. It keeps so many pages at most, 2 to 4,096,
    /// and none at first. All that its executions need is taken here.
    pub fn make(
        alloc: Global,
        frames: u32,
        image: &Image,
        code: &Verified,
    ) -> Result<Executor, NoMemory>
        requires least { 2 ≤ frames }
        requires most { frames ≤ 4096 }
        ensures words { IfOk result (λ executor. executor.words ≡ kinds_of image.now.memory) }
        ensures size { IfOk result (λ executor. executor.kept.size ≡ frames) }
        ensures pages { IfOk result (λ executor. executor.kept.pages ≡ []) }
        ensures fetched { IfOk result (λ executor. executor.fetched ≡ 0) }
        ensures written { IfOk result (λ executor. executor.written ≡ empty) }
    {
        let machine = Machine::make(alloc, code, 0)?;
        let pages = image.len().div_ceil(PAGE);
        let mut pool = FramePool::make(alloc, frames + pages)?;
        let buffer = WriteBuffer::make(alloc, image, &mut pool)?;
        match PageCache::make(alloc, frames) {
            Ok(cache) => Ok(Executor {
                machine,
                pool,
                cache,
                buffer,
            }),
            Err(wanted) => {
                buffer.give_back(&mut pool);
                Err(wanted)
            }
        }
    }

    /// Begins a step: the kept pages stay, and none of them counts as read.
    pub fn begin_step(&mut self)
        ensures { self.new ≡ self.old }
    {
        self.cache.begin_step();
    }

    /// Executes routine k of the job. What it wrote is in the buffer.
    pub fn run<N: JobName>(&mut self, job: &Job<'_, N>, k: u32) -> RoutineEnd
        requires number { k < size_of N.job }
        requires kinds { kinds_of job.now.image.now.memory ≡ kinds_of (module_memory job.now.code.now) }
        requires may { MayExecute self.old job.now.image.now }
        ensures answer { slice_get N.job.answers k ≡ Some (answer_by result self.new.written) }
        ensures size { self.new.kept.size ≡ self.old.kept.size }
        ensures may { MayExecute self.new job.now.image.now }
    {
        self.buffer.clear();
        run_over(
            &mut self.machine,
            &mut self.pool,
            &mut self.cache,
            &mut self.buffer,
            job,
            k,
        )
    }

    /// Keeps page p, where the image has it. It is fetched where it is not kept as it is in the image.
    pub fn fetch(&mut self, image: &Image, p: u32)
        requires may { MayExecute self.old image.now }
        ensures asks { Asks (cache_of self.old) (cache_of self.new) image.now p }
        ensures may { MayExecute self.new image.now }
    {
        if u64::from(p) * u64::from(PAGE) < u64::from(image.len()) {
            fetch_over(&mut self.pool, &mut self.cache, &self.buffer, image, p);
        }
    }

    /// The entry at the least address from this one on, of what the last routine wrote.
    fn next_from(&self, from: u32) -> Option<(u32, i64)>
        ensures next { IsNextFrom self.now.written from result }
        ensures addresses { IsBelow (2 ^ 32) self.now.written }
    {
        self.buffer.next(&self.pool, from)
    }

    /// How many pages were fetched, up to 2^64 - 1.
    pub fn fetched(&self) -> u64
        ensures { result ≡ self.now.fetched }
    {
        self.cache.fetched()
    }

    /// Gives all frames back to the pool, and drops it.
    pub fn end(self) {
        let Executor {
            machine: _,
            mut pool,
            cache,
            buffer,
        } = self;
        give_both(cache, buffer, &mut pool);
    }
}

/// What stands in an executor's buffer, lent as an update.
#[derive(Clone, Copy)]
pub struct BufferView<'w> {
    executor: &'w Executor,
}

impl<'w> BufferView<'w> {
    /// What the last routine wrote.
    pub fn of(executor: &'w Executor) -> BufferView<'w>
        ensures { result.executor.now ≡ executor.now }
    {
        BufferView { executor }
    }
}

impl UpdateWords for BufferView<'_> {
    ghost update = { λ v. v.executor.now.written };

    fn next_from(&self, from: u32) -> Option<(u32, i64)> {
        self.executor.next_from(from)
    }
}
