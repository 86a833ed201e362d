// The numbers of a published clearing at places that it has.
ghost use Rattle.std.specs.Prelude.{◌≡◌, ◌<◌, length, slice_index_or};
ghost use Rattle.weight_rows.specs.Rows.{price_of};
ghost use Rattle.flow_orders.specs.Residuals.{residual_in};
ghost use Rattle.batch_outcome.specs.Parts.{numbers_in, rates_in};

use batch_outcome::ClearedParts;

// Returns the price of an asset that has one.
pub(crate) fn price_at<P: ClearedParts>(parts: &P, asset: u16) -> i64
    requires { asset < length (P.clearing parts.now).prices }
    ensures { result ≡ price_of (P.clearing parts.now).prices asset }
{
    parts.price(asset).unwrap()
}

// Returns the number of the order at a place that has a rate.
pub(crate) fn number_at<P: ClearedParts>(parts: &P, place: u32) -> u64
    requires { place < length (P.clearing parts.now).fills }
    ensures { result ≡ slice_index_or (numbers_in (P.clearing parts.now)) place 0 }
{
    parts.order(place).unwrap()
}

// Returns the rate at a place that has one.
pub(crate) fn rate_at<P: ClearedParts>(parts: &P, place: u32) -> u32
    requires { place < length (P.clearing parts.now).fills }
    ensures { result ≡ slice_index_or (rates_in (P.clearing parts.now)) place 0 }
{
    parts.rate(place).unwrap()
}

// Returns the published residual of an asset that has one.
pub(crate) fn residual_at<P: ClearedParts>(parts: &P, asset: u16) -> i64
    requires { asset < length (P.clearing parts.now).residuals }
    ensures { result ≡ residual_in (P.clearing parts.now).residuals asset }
{
    parts.residual(asset).unwrap()
}
