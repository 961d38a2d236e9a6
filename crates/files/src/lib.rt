//! The files that a command reads and makes: what any files promise, those in memory and those of the
//! system.
#![tactic(auto)]

ghost use Rattle.std.specs.Prelude.{◌≡◌, ◌≢◌, ◌+◌, ℕ, List, [], Option, Some, false, IfOk, IfSome, IsErrOf, OnOk, OnErr, take};
ghost use Rattle.files.specs.Files.{KnownFile, Making, Holds, HoldsNow, IsAbsent, bytes_held, HoldsAtLeast, HoldsBeginning, ClosesAs, KeepsOthers, KeepsAllOthers, KeepsAllButThree, CannotMake, CannotMakeSecond, CannotMakeThird, AreThreeFiles, AreFourFiles, DifferEach};
ghost use Rattle.trace.specs.Writers.{writer_under, put_failures};

mod identity;
mod leads;
mod reading;
mod refusals;
mod stages;
pub mod system;
pub mod testing;
mod written;

pub use reading::read_whole;
use std::alloc::Global;
use std::io::Write;
use trace::Put;

/// Why a file was not read.
#[derive(Clone, Copy, Debug, PartialEq, Eq)]
pub enum ReadFault {
    /// No file has the name.
    Absent,
    /// One has it, but can't be read.
    Refused,
    /// Memory was refused.
    Memory,
}

/// Why a file was not made.
#[derive(Clone, Copy, Debug, PartialEq, Eq)]
pub enum FileFault {
    /// The file can't be made.
    Refused,
    /// Memory was refused.
    Memory,
}

/// Why neither of two files was made.
#[derive(Clone, Copy, Debug, PartialEq, Eq)]
pub enum PairFault {
    /// The first can't be made.
    First,
    /// The second can't.
    Second,
    /// Memory was refused.
    Memory,
}

/// Why none of three files was made.
#[derive(Clone, Copy, Debug, PartialEq, Eq)]
pub enum TripleFault {
    /// The first can't be made.
    First,
    /// The second can't.
    Second,
    /// The third can't.
    Third,
    /// Memory was refused.
    Memory,
}

/// Files by their names, as the command line gives them. A file may have several names: two stand for one
/// where what is written to the one is lost by what is written to the other, so never those of a terminal or
/// of `/dev/null`. The standard streams are standard output and standard error.
pub trait Files {
    /// A file that was made and is not closed yet.
    type Made: Write + Drop;

    // what is known of each name
    ghost known: { Self → List ℕ → KnownFile };

    // what is known of the making of files
    ghost making: { Self → Making };

    // how many writes and flushes of closed files were refused
    ghost refused: { Self → ℕ };

    /// All bytes of a file. `Absent` where no file has the name, `Refused` where one can't be read; `Memory`.
    fn read(&mut self, alloc: Global, name: &str) -> Result<Vec<u8>, ReadFault>
        ensures bytes { IfOk result (λ bytes. Holds (known self.old name.now) bytes.items) }
        ensures absent { IsErrOf result ReadFault.Absent → IsAbsent (known self.old name.now) }
        ensures refused { IsErrOf result ReadFault.Refused → IsAbsent (known self.old name.now) }
        ensures same { known self.new ≡ known self.old }
        ensures making { making self.new ≡ making self.old }
        ensures counted { refused self.new ≡ refused self.old };

    /// Makes an empty file, in the place of one that has the name already. After a fault no file has changed.
    ///
    /// Faults: `Refused` where it can't be made, or is the file of `source`, that of standard output or that of standard
    /// error; `Memory`.
    fn make(&mut self, source: &str, name: &str) -> Result<Self::Made, FileFault>
        ensures empty { OnOk result (HoldsNow (known self.old name.now) (known self.new name.now) []) }
        ensures made { IfOk result (λ made. IfSome (known self.old name.now) (λ _. Self.Made.contents made ≡ Some [])) }
        ensures apart { OnOk result ((making self.old).are_one source.now name.now ≡ false) }
        ensures others { KeepsOthers (known self.old) (known self.new) name.now }
        ensures refused { IsErrOf result FileFault.Refused → CannotMake (making self.old) source.now name.now }
        ensures making { making self.new ≡ making self.old }
        ensures counted { refused self.new ≡ refused self.old }
        ensures same { OnErr result (known self.new ≡ known self.old) };

    /// Opens a file that goes on behind its first `kept` bytes, which stay in place at every moment: what is behind them is cut
    /// off, and what is written stands there. Where no file has the name and `kept` is 0 it is made. After a fault no file has
    /// changed. What isn't a plain file, as a pipe, holds no first bytes, and is written as it is.
    ///
    /// Faults: `Refused` where it can't be made, is the file of `source` or that of a standard stream, or holds fewer bytes
    /// than `kept`; `Memory`.
    fn make_after(&mut self, source: &str, name: &str, kept: u64) -> Result<Self::Made, FileFault>
        ensures enough { OnOk result (HoldsAtLeast (known self.old name.now) kept) }
        ensures beginning { OnOk result (HoldsBeginning (known self.old name.now) (known self.new name.now) kept) }
        ensures made { IfOk result
            (λ made. IfSome (known self.old name.now) (λ held. Self.Made.contents made ≡ Some (take kept (bytes_held held)))) }
        ensures apart { OnOk result ((making self.old).are_one source.now name.now ≡ false) }
        ensures others { KeepsOthers (known self.old) (known self.new) name.now }
        ensures refused { IsErrOf result FileFault.Refused → HoldsAtLeast (known self.old name.now) kept
            → CannotMake (making self.old) source.now name.now }
        ensures making { making self.new ≡ making self.old }
        ensures counted { refused self.new ≡ refused self.old }
        ensures same { OnErr result (known self.new ≡ known self.old) };

    /// Makes two empty files, as `make` does. After a fault no file has changed, neither the one nor the other. In a
    /// system's files the second is empty until it is flushed, and then has its text whole.
    ///
    /// Faults: `First` or `Second` where that one can't be made, or is the file of `source` or that of a standard
    /// stream; `Second` also where it is the first; `Memory`.
    fn make_both(
        &mut self,
        source: &str,
        first: &str,
        second: &str,
    ) -> Result<(Self::Made, Self::Made), PairFault>
        ensures empty { OnOk result (HoldsNow (known self.old first.now) (known self.new first.now) []) }
        ensures empty_too { OnOk result (HoldsNow (known self.old second.now) (known self.new second.now) []) }
        ensures made { IfOk result (λ made. IfSome (known self.old first.now) (λ _. Self.Made.contents made.0 ≡ Some [])) }
        ensures made_too { IfOk result (λ made. IfSome (known self.old second.now) (λ _. Self.Made.contents made.1 ≡ Some [])) }
        ensures apart { OnOk result (AreThreeFiles (making self.old) source.now first.now second.now) }
        ensures differ { OnOk result (IfSome (known self.old first.now) (λ _. second.now ≢ first.now)) }
        ensures others { KeepsAllOthers (known self.old) (known self.new) first.now second.now }
        ensures refused { IsErrOf result PairFault.First → CannotMake (making self.old) source.now first.now }
        ensures refused_too { IsErrOf result PairFault.Second
            → CannotMakeSecond (making self.old) source.now first.now second.now }
        ensures making { making self.new ≡ making self.old }
        ensures counted { refused self.new ≡ refused self.old }
        ensures same { OnErr result (known self.new ≡ known self.old) };

    /// Makes three empty files, as `make_both` does: the second and the third are whole once they are flushed. After a
    /// fault no file has changed, none of the three.
    ///
    /// Faults: `First`, `Second` or `Third` where that one can't be made, or is the file of `source` or that of a
    /// standard stream; `Second` also where it is the first, `Third` where it is one of the two before; `Memory`.
    fn make_three(
        &mut self,
        source: &str,
        first: &str,
        second: &str,
        third: &str,
    ) -> Result<(Self::Made, Self::Made, Self::Made), TripleFault>
        ensures empty { OnOk result (HoldsNow (known self.old first.now) (known self.new first.now) []) }
        ensures empty_second { OnOk result (HoldsNow (known self.old second.now) (known self.new second.now) []) }
        ensures empty_third { OnOk result (HoldsNow (known self.old third.now) (known self.new third.now) []) }
        ensures made { IfOk result (λ made. IfSome (known self.old first.now) (λ _. Self.Made.contents made.0 ≡ Some [])) }
        ensures made_second { IfOk result (λ made. IfSome (known self.old second.now) (λ _. Self.Made.contents made.1 ≡ Some [])) }
        ensures made_third { IfOk result (λ made. IfSome (known self.old third.now) (λ _. Self.Made.contents made.2 ≡ Some [])) }
        ensures apart { OnOk result (AreFourFiles (making self.old) source.now first.now second.now third.now) }
        ensures differ { OnOk result (DifferEach (known self.old) first.now second.now third.now) }
        ensures others { KeepsAllButThree (known self.old) (known self.new) first.now second.now third.now }
        ensures refused { IsErrOf result TripleFault.First → CannotMake (making self.old) source.now first.now }
        ensures refused_second { IsErrOf result TripleFault.Second
            → CannotMakeSecond (making self.old) source.now first.now second.now }
        ensures refused_third { IsErrOf result TripleFault.Third
            → CannotMakeThird (making self.old) source.now first.now second.now third.now }
        ensures making { making self.new ≡ making self.old }
        ensures counted { refused self.new ≡ refused self.old }
        ensures same { OnErr result (known self.new ≡ known self.old) };

    /// Makes a file as `make` does, for a text that is written and then flushed at once. In a system's files the name stays
    /// with what it had until the flush: it has the old text or the new one, whole. There it is none of those that were
    /// read, either.
    fn make_whole(&mut self, source: &str, name: &str) -> Result<Self::Made, FileFault>
        ensures empty { OnOk result (HoldsNow (known self.old name.now) (known self.new name.now) []) }
        ensures made { IfOk result (λ made. IfSome (known self.old name.now) (λ _. Self.Made.contents made ≡ Some [])) }
        ensures apart { OnOk result ((making self.old).are_one source.now name.now ≡ false) }
        ensures others { KeepsOthers (known self.old) (known self.new) name.now }
        ensures refused { IsErrOf result FileFault.Refused → CannotMake (making self.old) source.now name.now }
        ensures making { making self.new ≡ making self.old }
        ensures counted { refused self.new ≡ refused self.old }
        ensures same { OnErr result (known self.new ≡ known self.old) };

    /// Makes two files as `make_both` does, each as `make_whole` does.
    fn make_both_whole(
        &mut self,
        source: &str,
        first: &str,
        second: &str,
    ) -> Result<(Self::Made, Self::Made), PairFault>
        ensures empty { OnOk result (HoldsNow (known self.old first.now) (known self.new first.now) []) }
        ensures empty_too { OnOk result (HoldsNow (known self.old second.now) (known self.new second.now) []) }
        ensures made { IfOk result (λ made. IfSome (known self.old first.now) (λ _. Self.Made.contents made.0 ≡ Some [])) }
        ensures made_too { IfOk result (λ made. IfSome (known self.old second.now) (λ _. Self.Made.contents made.1 ≡ Some [])) }
        ensures apart { OnOk result (AreThreeFiles (making self.old) source.now first.now second.now) }
        ensures differ { OnOk result (IfSome (known self.old first.now) (λ _. second.now ≢ first.now)) }
        ensures others { KeepsAllOthers (known self.old) (known self.new) first.now second.now }
        ensures refused { IsErrOf result PairFault.First → CannotMake (making self.old) source.now first.now }
        ensures refused_too { IsErrOf result PairFault.Second
            → CannotMakeSecond (making self.old) source.now first.now second.now }
        ensures making { making self.new ≡ making self.old }
        ensures counted { refused self.new ≡ refused self.old }
        ensures same { OnErr result (known self.new ≡ known self.old) };

    /// Closes a file that was made under the name: it holds what was written, and what its writer refused is counted.
    fn close(&mut self, name: &str, made: Put<Self::Made>)
        ensures closed { ClosesAs (known self.old name.now) (known self.new name.now) (Self.Made.contents (writer_under made)) }
        ensures others { KeepsOthers (known self.old) (known self.new) name.now }
        ensures refused { refused self.new ≡ refused self.old + put_failures made };
}
