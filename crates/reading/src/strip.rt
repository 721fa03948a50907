// Reading a photographed strip.
use crate::{Read, load};
use definitions::{Reading, Refusal};
use distance::word;
use field::bytes;
use field::inverse::inverses;
use plan::Plan;
use plan::kind::{Kind, Strip};
use reed_solomon::axis::Axis;
use reed_solomon::decoder::decode;

// A strip has its cells at the row points.
impl Read for Strip {
    fn read(
        plan: Plan,
        symbols: &[u8],
        doubts: &[u8],
        record: &mut [u8],
    ) -> Result<Reading, Refusal> {
        let g = plan.grid;
        let x = g.x;
        let axis = Axis {
            modulus: g.modulus,
            x,
            n: g.a,
            k: g.d,
            full: g.full,
        };
        let s = load::residue_row(symbols);
        let u = bytes::wide_row(doubts);
        let table = inverses(g.modulus);
        let Some(strip) = decode(axis, &table, s, u) else {
            return Err(Refusal::NoneNear);
        };
        bytes::store(record, &strip.message);
        let differing = word::differing(g.a, bytes::row(symbols), strip.values);
        Ok(answers::reading(Strip::radius(plan), strip.cost, differing, symbols))
    }
}
