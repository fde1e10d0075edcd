use super::TableFields;
use super::conditions::is_bad_request;
use crate::effect::Effect;
use crate::layout::{Allotted, Flag, SettingsWord};
use crate::limits::Limits;
use nvme_arbiter::Settings;
use nvme_entry::{AdminCommand, Status};

const ARBITRATION: u8 = 0x01;

const NUMBER_OF_QUEUES: u8 = 0x07;

impl TableFields {
    ghost use Rattle.nvme_admin.specs.Layout.{view_of};
    ghost use Rattle.std.specs.Prelude.{◌≡◌, ◌≢◌, ◌+◌, false, min, OnOk, IfErr};
    ghost use Rattle.nvme_entry.specs.Status.{success};
    ghost use Rattle.nvme_admin.specs.QueueTable.{nsqr_of, ncqr_of};
    ghost use Rattle.nvme_admin.specs.Checks.{is_success, status_in, numbers_dw0};
    ghost use Rattle.nvme_admin.specs.Standing.{command_status, table_of, Does};
    ghost use Rattle.nvme_admin.specs.Effects.{verdict_in, NamesRegions};

    // The checks of Set Features.
    fn check_set(&self, fid: u8, sv: bool, cdw11: u32) -> Result<(), Status>
        ensures passes { OnOk result (
            command_status (view_of self.now) (AdminCommand.SetFeatures fid sv cdw11) ≡ success) }
        ensures fails { IfErr result (λ s.
            command_status (view_of self.now) (AdminCommand.SetFeatures fid sv cdw11) ≡ s) }
        ensures failure { IfErr result (λ s. is_success s ≡ false) }
        ensures feature { OnOk result (fid ≢ 7 → fid ≡ 1) }
    {
        if fid != ARBITRATION && fid != NUMBER_OF_QUEUES {
            return Err(Status::INVALID_FIELD);
        }
        if sv {
            return Err(Status::FEATURE_NOT_SAVEABLE);
        }
        if fid == NUMBER_OF_QUEUES && self.created.is_up() {
            return Err(Status::SEQUENCE_ERROR);
        }
        if fid == NUMBER_OF_QUEUES && is_bad_request(cdw11) {
            return Err(Status::INVALID_FIELD);
        }
        Ok(())
    }

    // DW0 of Number of Queues: the allotted numbers, zero based.
    fn numbers(&self) -> u32
        ensures { result ≡ numbers_dw0 (table_of (view_of self.now)) }
    {
        u32::from(self.nsq.get() - 1) + 0x1_0000 * u32::from(self.ncq.get() - 1)
    }

    // The numbers that a request for Number of Queues gets.
    fn granted(&self, cdw11: u32) -> Limits
        ensures nsq { result.nsq ≡ min (nsqr_of cdw11 + 1) (view_of self.now).nsq }
        ensures ncq { result.ncq ≡ min (ncqr_of cdw11 + 1) (view_of self.now).ncq }
    {
        let nsq = (cdw11 % 0x1_0000 + 1).min(u32::from(self.nsq.get()));
        let ncq = (cdw11 / 0x1_0000 + 1).min(u32::from(self.ncq.get()));
        Limits {
            nsq: nsq as u16,
            ncq: ncq as u16,
        }
    }

    // Set Features.
    pub(super) fn set_features(&mut self, fid: u8, sv: bool, cdw11: u32) -> Effect
        ensures does { Does (view_of self.old) (view_of self.new) (AdminCommand.SetFeatures fid sv cdw11) (verdict_in result) }
        ensures regions { NamesRegions (view_of self.old) result }
        ensures unchanged { is_success (status_in (verdict_in result)) ≡ false → self.new ≡ self.old }
    {
        if let Err(status) = self.check_set(fid, sv, cdw11) {
            return Effect::Done(status, 0);
        }
        if fid == ARBITRATION {
            let settings = Settings::from_cdw11(cdw11);
            self.settings = SettingsWord::of(settings);
            return Effect::SetArbitration(settings);
        }
        if self.numbers_set.is_up() {
            return Effect::Done(Status::SUCCESS, self.numbers());
        }
        let granted = self.granted(cdw11);
        self.nsq = Allotted::of(granted.nsq);
        self.ncq = Allotted::of(granted.ncq);
        self.numbers_set = Flag::of(true);
        Effect::Done(Status::SUCCESS, self.numbers())
    }

    // Get Features.
    pub(super) fn get_features(&self, fid: u8) -> Effect
        ensures does { Does (view_of self.now) (view_of self.now) (AdminCommand.GetFeatures fid) (verdict_in result) }
        ensures regions { NamesRegions (view_of self.now) result }
    {
        match fid {
            ARBITRATION => Effect::Done(Status::SUCCESS, self.settings.get().to_cdw11()),
            NUMBER_OF_QUEUES => Effect::Done(Status::SUCCESS, self.numbers()),
            _ => Effect::Done(Status::INVALID_FIELD, 0),
        }
    }
}
