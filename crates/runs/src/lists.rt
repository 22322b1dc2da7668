// The two forms in which a caller lends transfers.
ghost use Rattle.std.specs.Prelude.{◌≡◌, ◌<◌, ◌≤◌, ◌%◌, Bool, false, not, List, eqb, length, get_or};
ghost use Rattle.answers.specs.Sizes.{most_transfers, most_transfer_bytes};
ghost use Rattle.answers.specs.Rows.{exceeds};
ghost use Rattle.transfers.specs.declared.Transfer.{Transfer};
ghost use Rattle.transfers.specs.Transfers.{flat_transfers};
ghost use Rattle.runs.specs.Inner.{no_transfer};
ghost use borrow.Author.Tests.{ltb-false};
ghost use Rattle.transfers.proofs.FlatBytes.{few_transfers};

use answers::sizes;
use transfers::Transfer;

// A list of transfers: what it holds, whether it is over its size, and whether its last transfer is cut short.
pub trait TransferList: Copy {
    ghost transfers: { Self → List Transfer };

    ghost over: { Self → Bool };

    ghost ragged: { Self → Bool };

    fn is_over(self) -> bool
        ensures { result ≡ over self };

    fn is_ragged(self) -> bool
        ensures { result ≡ ragged self };

    fn count(self) -> usize
        ensures { result ≡ length (transfers self) };

    fn at(self, k: usize) -> Transfer
        requires { k < length (transfers self) }
        ensures { result ≡ get_or (transfers self) k no_transfer };

    // A list of its size has few transfers.
    ghost few: { (list : Self) → over list ≡ false → length (transfers list) ≤ most_transfers };
}

// Flat bytes: subject, object and mode of each.
impl TransferList for &[u8] {
    ghost transfers = { λ bytes. flat_transfers bytes.now };

    ghost over = { λ bytes. exceeds (length bytes.now) most_transfer_bytes };

    ghost ragged = { λ bytes. not (eqb (length bytes.now % 3) 0) };

    ghost few = { λ bytes. few_transfers bytes.now };

    fn is_over(self) -> bool {
        self.len() > sizes::MOST_TRANSFER_BYTES
    }

    fn is_ragged(self) -> bool {
        self.len() % 3 != 0
    }

    #[tactic(auto, using(transfers::proofs::FlatBytes::transfers_length))]
    fn count(self) -> usize {
        self.len() / 3
    }

    #[tactic(auto, using(transfers::proofs::FlatBytes::transfers_length, transfers::proofs::FlatBytes::transfers_at))]
    fn at(self, k: usize) -> Transfer {
        let first = k * 3;
        Transfer {
            subject: self[first],
            object: self[first + 1],
            mode: self[first + 2],
        }
    }
}

// Records, lent as they stand.
impl TransferList for &[Transfer] {
    ghost transfers = { λ records. records.now };

    ghost over = { λ records. exceeds (length records.now) most_transfers };

    ghost ragged = { λ records. false };

    ghost few = { λ records. ltb-false most_transfers (length records.now) };

    fn is_over(self) -> bool {
        self.len() > sizes::MOST_TRANSFERS
    }

    fn is_ragged(self) -> bool {
        false
    }

    fn count(self) -> usize {
        self.len()
    }

    fn at(self, k: usize) -> Transfer {
        self[k]
    }
}
