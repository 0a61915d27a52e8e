//! A session over plain mail, for one thread: a driver carries its parcels.
ghost use Rattle.std.specs.Prelude.{◌≡◌, ◌-◌, ◌≤◌, length};
ghost use Rattle.mail_contract.specs.OverPlain.{Delivers, GivesUp};
ghost use Rattle.session_proxy.specs.OverProxies as over;

use crate::{Consistency, ProxyOver};
use mail_contract::{Parcel, ParcelFault, PlainRx, PlainTx, Rx, Tx, deliver, parcel_of};
use store_msg::{Reply, Request};

impl<C: Consistency> ProxyOver<C, PlainTx<Request>, PlainRx<Reply>> {
    /// Gives up the requests that were sent to a worker since its last parcel. The worker is there. Takes no
    /// memory.
    pub fn request_parcel(&mut self, worker: u16) -> Parcel<Request>
        requires { (1 ≤ worker) × (worker ≤ length self.old.ends.requests.items) }
        ensures share { over.Share ⟦<PlainTx<Request> as Tx<Request>>⟧
            ⟦<PlainRx<Reply> as Rx<Reply>>⟧ self.new }
        ensures parcel { GivesUp ⟦<PlainTx<Request> as Tx<Request>>⟧
            (worker - 1) result self.old.ends.requests.items self.new.ends.requests.items }
        ensures course { self.new.course ≡ self.old.course }
        ensures replies { self.new.ends.replies ≡ self.old.ends.replies }
    {
        let parcel = parcel_of(&mut self.ends.requests, usize::from(worker) - 1);
        self.attest();
        parcel
    }

    /// Takes in a parcel of a worker's replies. A refusal hands it back, and nothing has changed.
    pub fn deliver(&mut self, parcel: Parcel<Reply>) -> Result<(), ParcelFault<Reply>>
        ensures share { over.Share ⟦<PlainTx<Request> as Tx<Request>>⟧
            ⟦<PlainRx<Reply> as Rx<Reply>>⟧ self.new }
        ensures delivers { Delivers ⟦<PlainRx<Reply> as Rx<Reply>>⟧ parcel result
            self.old.ends.replies self.new.ends.replies }
        ensures course { self.new.course ≡ self.old.course }
        ensures requests { self.new.ends.requests ≡ self.old.ends.requests }
    {
        let delivered = deliver(&mut self.ends.replies, parcel);
        self.attest();
        delivered
    }
}
