//! A log as an archive's store.

ghost use Rattle.std.specs.Prelude.{◌≡◌, ◌==◌};
ghost use Rattle.op_shelf.specs.Entries.{kind_in};
ghost use Rattle.shelved_site.specs.Stores.{count_in};

use crate::keeping::KeptLog;
use crate::reading::read_log;
use crate::store::Store;
use crate::telling::fault;
use crate::unreadable::Readable;
use crate::verifying::test_all;
use op_log::OpLog;
use op_shelf::{Keep, Kept, ShelfFault, Testing, Verified};
use operation::{Digested, Op};
use records::RecordedOp;
use sqlite_disk::Disk;

/// Whether an operation whose spelling begins so has a kind.
fn is_of_kind(front: &[u8], kind: u8) -> bool
    ensures { result ≡ (kind_in front.now == kind) }
{
    match front.first() {
        Some(first) => *first == kind,
        None => kind == 0,
    }
}

/// How many operations of a log have a kind. No data set is read.
fn count<H: Disk, B: Disk>(log: &OpLog<H, B>, kind: u8) -> u64
    ensures { result ≡ count_in kind log.now.places }
{
    let mut count = 0;
    for index in 0..log.len() {
        let Some(record) = log.record(index) else {
            return count;
        };
        if is_of_kind(record.front, kind) {
            count += 1;
        }
    }
    count
}

impl<H: Disk + Drop, B: Disk> Store for KeptLog<H, B> {
    ghost use Rattle.sqlite_disk.specs.Disk.{MoreFaults};
    ghost use Rattle.op_shelf.specs.Keep.{AreSame};
    ghost use Rattle.shelved_site.specs.Keeping.{IsUp, Holds, Lasts, log_of};
    ghost use Rattle.shelved_site.specs.Proved.Logs.{any_parts, parts_in};
    ghost use Rattle.shelved_site.specs.Readable.{read_in, shown_in};
    ghost use Rattle.shelved_site.specs.Refusing.{LogRefusesAll};
    ghost use Rattle.shelved_site.specs.Stores.{IsSame, count_in};
    ghost use Rattle.shelved_site.specs.Verifying.{AreVerified};
    ghost use Rattle.std.proofs.Common.{ap, sym, ◌∙◌};

    ghost is_clean = { λ s. IsUp H.Disk B.Disk (log_of s) };

    ghost shows = { λ s told ops. shown_in B.Disk (log_of s) told ops };

    ghost reads = { λ s t told ops. read_in B.Disk (log_of s) (log_of t) told ops };

    ghost count = { λ s kind. count_in kind (log_of s).places };

    ghost verifies = { λ s t count told. AreVerified (B.Disk.seen (log_of s).bodies)
        (MoreFaults (B.Disk.faults (log_of s).bodies) (B.Disk.faults (log_of t).bodies))
        (log_of s).places count told };

    ghost is_same = { λ s t. IsSame B.Disk (log_of s) (log_of t) };

    ghost spares = { λ s t. AreSame (Holds B.Disk (log_of s)) (Holds B.Disk (log_of t)) };

    ghost is_left = { λ s op. Lasts H.Disk B.Disk (log_of s) op };

    ghost refuses_all = { λ s t fault. LogRefusesAll B.Disk (log_of s) (log_of t) fault };

    ghost refuses_count = { λ s kind t fault. ⊥ };

    ghost alike = { λ s a b same held. (held.0, held.1, sym same ∙ held.2) };

    ghost read_shows = { λ s t told ops read. any_parts _ _ (log_of s).places told ops read };

    ghost found_shows = { λ s told ops others shown found.
        parts_in _ _ (log_of s).places told ops others shown found };

    ghost memory_refuses = { λ s t digest. tt };

    ghost same_spared = { λ s t same. same.holds };

    ghost same_spares = { λ s t u same spared op. (
      λ held. (spared op).0 ((same.holds op).0 held),
      λ held. (same.holds op).1 ((spared op).1 held),
    ) };

    ghost same_same = { λ s t u one two. record {
      looks = record {
        heads = two.looks.heads ∙ one.looks.heads;
        heads_end = two.looks.heads_end ∙ one.looks.heads_end;
        places = two.looks.places ∙ one.looks.places;
        opens = two.looks.opens ∙ one.looks.opens;
      };
      holds = λ op. (
        λ held. (two.holds op).0 ((one.holds op).0 held),
        λ held. (one.holds op).1 ((two.holds op).1 held),
      );
      shows = λ told ops shown. two.shows told ops (one.shows told ops shown);
    } };

    ghost same_shows = { λ s t same. same.shows };

    ghost same_count = { λ s t same kind. ap (count_in kind) same.looks.places };

    fn readable(&mut self) -> Result<Readable, ShelfFault> {
        match read_log(self.alloc, &mut self.log, &[]) {
            Ok(found) => Ok(found),
            Err(refused) => Err(fault(refused)),
        }
    }

    fn load_recorded(&mut self, recorded: &RecordedOp) -> Result<Digested, ShelfFault> {
        self.log.see_own_digests();
        match self.log.load(recorded.digest()) {
            Ok(Some(op)) => Ok(op),
            Ok(None) => Err(ShelfFault::BadRow),
            Err(refused) => Err(fault(refused)),
        }
    }

    fn count_kind(&mut self, kind: u8) -> Result<u64, ShelfFault> {
        Ok(count(&self.log, kind))
    }

    fn verify<T: Testing>(&mut self, hearing: &T) -> Result<Verified, ShelfFault> {
        let operations = self.log.len() as u64;
        match test_all(self.alloc, &mut self.log, hearing) {
            Ok(damaged) => Ok(Verified {
                operations,
                damaged,
            }),
            Err(refused) => Err(fault(refused)),
        }
    }

    fn add(&mut self, op: &Op) -> Result<Kept, ShelfFault> {
        self.put(op)
    }
}
