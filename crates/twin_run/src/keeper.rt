//! Two copies with their twin, as one keeper.
ghost use Rattle.std.specs.Prelude.{◌≡◌, [], ◌∷◌};
ghost use Rattle.kdcfile_store.specs.Paged.{identity_with};
ghost use Rattle.kdcfile_double.specs.Twice.{IsOpen, content_of};
ghost use Rattle.twin_run.specs.Keeping.{IsSinceStart, TwinKept, StaysFine, file_kept, leaves_kept, stands_kept, state_kept};
ghost use Rattle.twin_run.specs.KeepingLaws.{chosen_stands, earlier_kept, goes_fine, left_kept, none_written, sent_kept};

use application_types::generation::Generation;
use device_acts::Keeper;
use device_acts::warm_start::{OpenError, limits_of};
use device_run::Reopens;
use kd_device::{DeviceError, Half, Origin, SameTwin, Twin};
use kd_records::Patch;
use kdcfile_copies::kdcfile_halves::say_both;
use kdcfile_double::TwinStore;
use kdcfile_store::StoreLimits;
use kdcs_types::Tables;
use std::alloc::Global;
use std::marker::{Brand, Model};

/// Where a run begins: the twin that is lent to it, and the copies.
pub trait Start: Origin {
    ghost use Rattle.kdcfile_double.specs.Twice.{Twice};

    ghost store: { Twice };
}

impl Start for Brand {
    ghost use Rattle.std.specs.Prelude.{None};

    ghost store = { record { first = None; second = None; mended = None; lost = None } };
}

/// Two copies with their twin. After a commit or an opening that answered an error no copy is in use. Contracts see the
/// twin, the copies, and what the generation's own file would be made with.
#[derive(Drop)]
pub struct TwinKeeper<T: Twin, S: Start> {
    twin: SameTwin<T, S>,
    store: TwinStore,
    limits: StoreLimits,
    fingerprint: [u8; 32],
}

impl<T: Twin, S: Start> Model for TwinKeeper<T, S> {
    ghost use Rattle.kdcfile_store.specs.Paged.{identity_with};
    ghost use Rattle.twin_run.specs.Keeping.{IsSinceStart, TwinKept};

    ghost Value = { TwinKept T };

    ghost view = { λ k. record { twin = k.twin; store = k.store; identity = identity_with k.limits k.fingerprint } };

    ghost invariant = { λ k. IsSinceStart S.store S.both (T.both k.twin) (identity_with k.limits k.fingerprint) k.store };
}

impl<T: Twin, S: Start> TwinKeeper<T, S> {
    /// Copies that are in use, with their twin.
    pub fn new(
        twin: T,
        store: TwinStore,
        limits: StoreLimits,
        fingerprint: &[u8; 32],
    ) -> TwinKeeper<T, S>
        requires place { T.place twin ≡ S.place }
        requires copies { IsSinceStart S.store S.both (T.both twin) (identity_with limits fingerprint.now) store }
        ensures { result ≡ record { twin = twin; store = store; identity = identity_with limits fingerprint.now } }
    {
        TwinKeeper {
            twin: SameTwin::new(twin),
            store,
            limits,
            fingerprint: *fingerprint,
        }
    }

    /// The half that is used no more, since a call on it failed.
    pub fn lost(&self) -> Option<Half>
        ensures { result ≡ self.now.store.lost }
    {
        self.store.lost()
    }

    /// The twin again.
    pub fn into_twin(self) -> T
        ensures twin { result ≡ self.twin }
        ensures place { T.place self.twin ≡ S.place }
        ensures since { IsSinceStart S.store S.both (T.both self.twin) self.identity self.store }
    {
        let TwinKeeper { twin, .. } = self;
        twin.into_twin()
    }
}

impl<T: Twin, S: Start> Keeper for TwinKeeper<T, S> {
    ghost state = { λ k. state_kept S.store S.both (T.both k.twin) };

    ghost leaves = { λ k. leaves_kept S.store S.both (T.both k.twin) (T.leaves k.twin) };

    ghost identity = { λ k. k.identity };

    ghost kept = { λ k. content_of k.store };

    ghost file = { λ k. file_kept k.identity k.store (T.both k.twin) };

    ghost stands = { stands_kept };

    ghost most_written = { λ i x patch. 0 };

    ghost fine = { StaysFine S.store S.both };

    ghost place = { λ k. S.place ∷ [] };

    ghost ready = { λ k. IsOpen k.store };

    fn commit(&mut self, alloc: Global, patch: &Patch) -> Result<(), DeviceError> {
        let mut store = self.store.give_up();
        store.copies_are_alike();
        store.commit(alloc, &mut self.twin, patch)?;
        store.copies_are_alike();
        self.store = store;
        Ok(())
    }

    fn say(&mut self, piece: &[u8]) -> Result<(), DeviceError> {
        say_both(&mut self.twin, piece)
    }

    ghost file_stands = { λ k c file. chosen_stands k.identity k.store (T.both k.twin) c file };

    ghost fine_goes = { goes_fine S.store S.both };

    ghost left_now = { λ k told. left_kept S.store S.both (T.both k.twin) (T.leaves k.twin) (T.holds_now k.twin told) };

    ghost sent_now = { λ k c out told left. sent_kept S.store S.both (T.both k.twin) (T.leaves k.twin) (λ c d out. T.sent_now k.twin c d out told) c out left };

    ghost earlier = { λ k t u c out told le left. earlier_kept S.store S.both (T.both k.twin) (T.leaves k.twin) (λ t u c d out. T.earlier k.twin t u c d out told) t u c out le left };
}

impl<T: Twin, S: Start> Reopens for TwinKeeper<T, S> {
    ghost commit_most = { λ i patch. 0 };

    fn reopen(
        &mut self,
        alloc: Global,
        generation: &Generation,
        fingerprint: &[u8; 32],
    ) -> Result<Tables, OpenError> {
        let store = self.store.give_up();
        store.copies_are_alike();
        let (store, tables) = store.reopen(alloc, &mut self.twin, generation, fingerprint)?;
        store.copies_are_alike();
        self.limits = limits_of(generation);
        self.fingerprint = *fingerprint;
        self.store = store;
        Ok(tables)
    }

    ghost commit_bounded = { none_written };
}
