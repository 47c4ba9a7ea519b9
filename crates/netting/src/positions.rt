// The position of one house, computed from all that waits.
ghost use Rattle.std.specs.Prelude.{◌≡◌, ℕ, ◌<◌, ◌≤◌, true, length, if◌then◌else◌};
ghost use Rattle.netting.specs.Payments.{waiting, is_from, is_to, most_records, most_cents};
ghost use Rattle.netting.specs.Selections.{position_of};
ghost use Rattle.records.specs.Records.{record_at};

use records::Record;

// What the record is to the house as its receiver.
fn received_by(p: Record, house: usize) -> u64
    ensures { result ≡ (if is_to p house then p.amount else 0) }
{
    if p.receiver == Some(house) {
        p.amount
    } else {
        0
    }
}

// What it is to the house as its sender.
fn sent_by(p: Record, house: usize) -> u64
    ensures { result ≡ (if is_from p house then p.amount else 0) }
{
    if p.sender == house { p.amount } else { 0 }
}

// What the house is to receive, less what it is to send, if all that waits is settled.
pub fn position(records: &[Record], house: usize) -> i64
    requires few { length records.now ≤ most_records }
    requires small { (i : ℕ) → i < length records.now → waiting records.now i ≡ true → (record_at records.now i).amount ≤ most_cents }
    ensures { result ≡ position_of records.now (waiting records.now) house }
{
    // one walk for both sums
    let mut received: u64 = 0;
    let mut sent: u64 = 0;
    for r in records {
        if r.state.is_waiting() {
            received += received_by(*r, house);
            sent += sent_by(*r, house);
        }
    }
    received as i64 - sent as i64
}
