ghost use Rattle.std.specs.Prelude.{◌≡◌, ◌<◌, ◌≤◌, [], length, option_map, slice_get, Some};
ghost use Rattle.final_cond.specs.Conditions.{cond_view};
ghost use Rattle.litmus_text.specs.{TestReading.{TestRead}, Runnable.{IsRunnable, NamesRegisters}, declared.limits.TheConstants.{MAX_THREADS}};

use crate::limits::MAX_THREADS;
use crate::reading::thread::Thread;
use arch_trait::Places;
use final_cond::Cond;
use micro_ops::Micro;
use relax_edges::Value;
use std::marker::{Model, PhantomData};

/// A test that was read, as a test of an architecture.
#[derive(Drop)]
pub struct ReadTest<A> {
    pub(crate) name: Vec<u8>,
    pub(crate) quoted: Option<Vec<u8>>,
    pub(crate) places: Places,
    pub(crate) threads: Vec<Thread>,
    pub(crate) cond: Cond,
    pub(crate) arch: PhantomData<A>,
}

impl<A> Model for ReadTest<A> {
    ghost Value = { TestRead };

    ghost view = { λ t. record { name = t.name.items; quoted = option_map (λ text. text.items) t.quoted; places = t.places; threads = t.threads.items; cond = cond_view t.cond } };

    ghost invariant = { λ t. length t.threads.items ≤ MAX_THREADS };
}

impl<A> ReadTest<A> {
    /// The name in the header.
    pub fn name(&self) -> &[u8]
        ensures { result.now ≡ self.now.name }
    {
        self.name.as_slice()
    }

    /// The text in double quotes below the header, if there is one.
    pub fn quoted(&self) -> Option<&[u8]>
        ensures { option_map (λ text. text.now) result ≡ self.now.quoted }
    {
        match &self.quoted {
            Some(text) => Some(text.as_slice()),
            None => None,
        }
    }

    /// The names of the locations, which are numbered by first mention.
    pub fn places(&self) -> &Places
        ensures { result.now ≡ self.now.places }
    {
        &self.places
    }

    /// How many threads the test has, at most `MAX_THREADS`.
    pub fn threads(&self) -> u8
        ensures { result ≡ length self.now.threads }
    {
        self.threads.len() as u8
    }

    /// The operations of a thread, in order. They can be run, as `IsRunnable` says.
    pub fn code(&self, thread: u8) -> &[Micro]
        requires { thread < length self.now.threads }
        ensures value { option_map (λ t. t.code) (slice_get self.now.threads thread) ≡ Some result.now }
        ensures runnable { IsRunnable result.now }
    {
        let thread = &self.threads[usize::from(thread)];
        thread.code.as_slice()
    }

    /// The registers of a thread to which the initial state gives a value, in its order. All others
    /// begin as the number 0.
    pub fn init(&self, thread: u8) -> &[(u8, Value)]
        requires { thread < length self.now.threads }
        ensures value { option_map (λ t. t.init) (slice_get self.now.threads thread) ≡ Some result.now }
        ensures registers { NamesRegisters result.now }
    {
        let thread = &self.threads[usize::from(thread)];
        thread.init.as_slice()
    }

    /// The condition. By the definition of reading, its registers are registers of the test's threads.
    pub fn cond(&self) -> &Cond
        ensures { cond_view result.now ≡ self.now.cond }
    {
        &self.cond
    }
}
