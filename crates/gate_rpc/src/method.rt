//! The methods that can be called.
ghost use Rattle.std.specs.Prelude.{◌≡◌};
ghost use Rattle.gate_rpc.specs.Methods.{method_named, method_name};

use gate_bytes::Exact;

/// What can be called, under the names of Bitcoin Core 22.0; `gettxspendingprevout` came with 24.0, and `submitpackage`
/// with 26.0.
#[derive(Clone, Copy, Debug, PartialEq, Eq)]
pub enum Method {
    SendRawTransaction,
    TestMempoolAccept,
    GetRawMempool,
    GetMempoolEntry,
    GetMempoolAncestors,
    GetMempoolDescendants,
    GetMempoolInfo,
    GetRawTransaction,
    GetTxSpendingPrevout,
    SubmitPackage,
}

impl Method {
    /// The method of this name.
    pub fn named(name: &str) -> Option<Method>
        ensures { result ≡ method_named name.now }
    {
        if name == "sendrawtransaction" {
            Some(Method::SendRawTransaction)
        } else if name == "testmempoolaccept" {
            Some(Method::TestMempoolAccept)
        } else if name == "getrawmempool" {
            Some(Method::GetRawMempool)
        } else if name == "getmempoolentry" {
            Some(Method::GetMempoolEntry)
        } else if name == "getmempoolancestors" {
            Some(Method::GetMempoolAncestors)
        } else if name == "getmempooldescendants" {
            Some(Method::GetMempoolDescendants)
        } else if name == "getmempoolinfo" {
            Some(Method::GetMempoolInfo)
        } else if name == "getrawtransaction" {
            Some(Method::GetRawTransaction)
        } else if name == "gettxspendingprevout" {
            Some(Method::GetTxSpendingPrevout)
        } else if name == "submitpackage" {
            Some(Method::SubmitPackage)
        } else {
            None
        }
    }

    pub fn name(&self) -> &'static str
        ensures { result.now ≡ method_name self.now }
    {
        match self {
            Method::SendRawTransaction => "sendrawtransaction",
            Method::TestMempoolAccept => "testmempoolaccept",
            Method::GetRawMempool => "getrawmempool",
            Method::GetMempoolEntry => "getmempoolentry",
            Method::GetMempoolAncestors => "getmempoolancestors",
            Method::GetMempoolDescendants => "getmempooldescendants",
            Method::GetMempoolInfo => "getmempoolinfo",
            Method::GetRawTransaction => "getrawtransaction",
            Method::GetTxSpendingPrevout => "gettxspendingprevout",
            Method::SubmitPackage => "submitpackage",
        }
    }
}

impl Exact for Method {
    ghost use Rattle.gate_rpc.specs.contracts.method.Method.{enum};
    ghost use Rattle.gate_bytes.specs.Equality.{bare_decides};

    ghost exact = { bare_decides enum tt };
}
