//! A device and its store as one keeper.
ghost use Rattle.std.specs.Prelude.{[], ◌∷◌, ⊤};
ghost use Rattle.kd_device.specs.Device.{SameFaults};
ghost use Rattle.device_acts.specs.{Acting.{OwnFile}, SingleLaws.{faults_go}};

use crate::keeper::Keeper;
use crate::saying::say;
use kd_device::{Device, DeviceError};
use kd_records::Patch;
use kdcfile_store::Store;
use std::alloc::Global;

/// A content that is kept in the file of a device, with its line.
#[derive(Drop)]
pub struct SingleFile<'a, D: Device, S: Store<D>> {
    pub device: &'a mut D,
    pub store: &'a mut S,
}

impl<D: Device, S: Store<D>> Keeper for SingleFile<'_, D, S> {
    ghost state = { λ k. D.state k.device.now };

    ghost leaves = { λ k. D.leaves k.device.now };

    ghost identity = { λ k. S.identity k.store.now };

    ghost kept = { λ k. S.kept k.store.now };

    ghost file = { λ k. OwnFile (S.file k.store.now) (D.state k.device.now) };

    ghost stands = { S.stands };

    ghost most_written = { S.most_written };

    ghost fine = { SameFaults };

    ghost place = { λ k. k.device.ghost_name ∷ k.store.ghost_name ∷ [] };

    ghost ready = { λ k. ⊤ };

    fn commit(&mut self, alloc: Global, patch: &Patch) -> Result<(), DeviceError> {
        self.store.commit(alloc, self.device, patch)
    }

    fn say(&mut self, piece: &[u8]) -> Result<(), DeviceError> {
        say(self.device, piece)
    }

    ghost file_stands = { λ k c file. S.file_stands k.store.now c file.0 };

    ghost fine_goes = { faults_go };

    ghost left_now = { λ k told. ((D.state k.device.now).holds, D.holds_now k.device.now told) };

    ghost sent_now = { λ k c out told left. D.sent_now k.device.now c out told left };

    ghost earlier = { λ k t u c out told le left. D.earlier k.device.now t u c out told le left };
}
