//! Laws: functions that do nothing, each with a law of the definitions as its contract.

ghost use Rattle.certify.specs.Laws.{CertifiedIsUnmet, CertifiedOrderKept, CertifiedTilesApart};

/// Where a schedule has a certificate, no whole-number point meets a system together with a violated row.
pub fn certified_is_unmet()
    ensures { CertifiedIsUnmet }
{}

/// Where a schedule has a certificate, a conflicting pair of a chunk of at most its length keeps its order.
pub fn certified_order_kept()
    ensures { CertifiedOrderKept }
{}

/// Where a schedule has a certificate, instances of such a chunk in different tiles of one phase never conflict.
pub fn certified_tiles_apart()
    ensures { CertifiedTilesApart }
{}
