//! Laws of runs of requests, without code: each is the contract of a function that does nothing.
//! The program stands on them.

ghost use Rattle.std.specs.Prelude.{◌≡◌, ◌<◌, ℕ, List, [], ◌∷◌, nat_eq, true, Option, Ok, Err, Result, IfSome};
ghost use Rattle.std.specs.List.{list_any};
ghost use Rattle.ix_disk.specs.Moments.{Always};
ghost use Rattle.ix_http.specs.declared.kinds.Ask.TheVariants as asks;
ghost use Rattle.ix_http.specs.declared.kinds.Incoming.TheVariants as was;
ghost use Rattle.ix_serve.specs.Answer.{declined};
ghost use Rattle.ix_serve.specs.Entries.{committed, drawn, is_acked};
ghost use Rattle.ix_serve.specs.Serving.{still_open};
ghost use Rattle.ix_sessions.specs.Feeding.{Start, Turn, Coming, IsTurn, AreSafe, Has, Lasts, HasKnown, disk_after, end_of, entry_of};
ghost use Rattle.ix_sessions.specs.Feeding.{history_after, known};
ghost use Rattle.ix_sessions.specs.Reading.{ReadsTo, end_by};

use crate::feed::Fed;
use ix_disk::Disk;
use ix_serve::ServeFault;
use ix_store::StoreMemory;

/// A run over one link ends behind a request where, and as, what was read of it says, unless the
/// link or the disk has failed: at the end of the link, where a request is cut, and where it is
/// refused, or there is no room to read it, and it is not known where it ends.
pub fn ends_by_what_is_read<D: Disk, M: StoreMemory>()
    ensures { (s : Start D) (earlier : List (Turn D)) (turn : Turn D) (from to : Coming) (request : ℕ) →
        IsTurn D.Disk M.Book.fits s earlier turn from to →
        still_open turn.result ≡ true → (turn.result ≡ Err ServeFault.Link → ⊥) → end_of request turn.result ≡ end_by request turn.read }
{}

/// A run over one link that has ended with its link has read all of it.
pub fn an_ended_run_has_read_all()
    ensures { (left left' : Option (List ℕ)) → ReadsTo Fed.Ended left left' → IfSome left' (λ bytes. bytes ≡ []) }
{}

/// Behind a commit all numbers that the run has drawn are told as stored.
pub fn all_is_told_behind_a_commit<D: Disk, M: StoreMemory>()
    ensures { (s : Start D) (earlier : List (Turn D)) (last turn : Turn D) (from to : Coming) →
        IsTurn D.Disk M.Book.fits s (last ∷ earlier) turn from to →
        last.answer.commits ≡ true → still_open last.result ≡ true →
        committed (entry_of s (last ∷ earlier) turn) ≡ drawn (entry_of s (last ∷ earlier) turn) }
{}

/// So a question for acknowledgements makes the next answer `true`, over the same link or over the
/// next connection: a number that the run has drawn, and that was asked for, is committed when the
/// next request comes, unless there was no room in memory for the reply.
pub fn an_asked_number_is_told_next<D: Disk, M: StoreMemory>()
    ensures { (s : Start D) (earlier : List (Turn D)) (last turn : Turn D) (from mid mid' to : Coming) (numbers : List ℕ)
        (number : ℕ) → IsTurn D.Disk M.Book.fits s earlier last from mid → IsTurn D.Disk M.Book.fits s (last ∷ earlier) turn mid' to →
        last.read ≡ Ok (was.Asked (asks.Acks s.run numbers)) → (last.answer ≡ declined → ⊥) → still_open last.result ≡ true →
        list_any (λ n. nat_eq n number) numbers ≡ true → number < drawn (entry_of s earlier last) →
        is_acked (entry_of s (last ∷ earlier) turn) s.run number ≡ true }
{}

/// What was known as committed at any of the turns goes on being known,
pub fn what_is_known_stays_known<D: Disk, M: StoreMemory>()
    ensures { (s : Start D) (turns : List (Turn D)) → AreSafe D.Disk M.Book.fits s turns → HasKnown (known s turns) turns }
{}

/// and every image from the disk behind each of them on has what was known as committed then.
pub fn what_is_known_lasts<D: Disk, M: StoreMemory>()
    ensures { (s : Start D) (turns : List (Turn D)) (new : D) → AreSafe D.Disk M.Book.fits s turns →
        Always D.Disk (disk_after s turns) new (Has M.Book.fits s turns (known s turns)) →
        Lasts D.Disk M.Book.fits s (history_after s turns) new turns }
{}
