//! What a kind of mail tells contracts.
ghost use Rattle.party_turns.specs.Ends.{Ends, mail_of};

use store_msg::Mail;

/// A kind of mail, to contracts: what its ends tell, in one value.
pub trait Tells: Mail {
    ghost mail: { Ends Self.ReqTx Self.RepTx Self.GosTx Self.ReqRx Self.GosRx Self.RepRx
        Self.ReqTx.Key Self.RepTx.Key Self.GosTx.Key Self.ReqRx.Key Self.GosRx.Key Self.RepRx.Key };
}

impl<P: Mail> Tells for P {
    ghost mail = { mail_of P.ReqTx.Tx P.RepTx.Tx P.GosTx.Tx P.ReqRx.Rx P.GosRx.GossipRx P.RepRx.Rx };
}
