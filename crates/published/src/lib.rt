// Friction compared with published values.
#![tactic(auto)]

#[cfg(test)]
mod tests {
    use laws::{CastIron, Composite, FallingLaw};
    use units::{Millionths, Speed};

    // Speeds in km/h, and the published friction there of cast iron and of composite blocks, in thousandths.
    const PUBLISHED: [(u32, u32, u32); 8] = [
        (10, 198, 339),
        (20, 162, 322),
        (40, 126, 297),
        (60, 108, 280),
        (80, 97, 267),
        (100, 90, 257),
        (120, 85, 249),
        (160, 78, 237),
    ];

    // Both values of a friction are within one in the third decimal.
    fn is_near<F: FallingLaw<Unit = Millionths>>(law: &F, kmh: u32, thousandths: u32) -> bool {
        let v = Speed::capped(kmh.saturating_mul(10));
        let published = thousandths.saturating_mul(1000);
        law.below(v).count().abs_diff(published) <= 1000
            && law.above(v).count().abs_diff(published) <= 1000
    }

    #[test]
    fn friction_is_as_published(rt: HostRuntime) {
        for (kmh, cast_iron, composite) in PUBLISHED {
            assert!(rt; is_near(&CastIron, kmh, cast_iron));
            assert!(rt; is_near(&Composite, kmh, composite));
        }
    }
}
