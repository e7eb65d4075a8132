// Values of the language: numbers and texts, what is reckoned with them, and where the parts of a text stand.
#![tactic(auto)]

pub mod compare;
pub mod fields;
pub mod numbers;
pub mod parts;
pub mod texts;

#[cfg(test)]
mod tests {
    use super::compare::*;
    use super::numbers::*;
    use super::texts::*;
    use store::bytes::Bytes;
    use store::decimal::decimal_of;

    fn above<T: Bytes>(t: &T, n: i64) -> bool {
        compare(Comparison::Above, Operand::Text(t), Operand::<T>::number(n))
    }

    #[test]
    fn worked(rt: HostRuntime) {
        assert_eq!(rt; add(1 << 61, 1 << 61), None);
        assert_eq!(rt; subtract(-(1 << 61), 1 << 61), Some(-(1 << 62)));
        assert_eq!(rt; divide(-7, 2).ok(), Some(-3));
        assert_eq!(rt; remainder(-7, 2).ok(), Some(-1));
        let ten = decimal_of(10);
        let below = decimal_of(-42);
        assert_eq!(rt; number_of(&below), -42);
        assert!(rt; looks(&below));
        assert!(rt; earlier(&below, &ten));
        assert!(rt; above(&ten, 9));
    }
}
