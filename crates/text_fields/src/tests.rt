use crate::Fields;

#[test]
fn reads_fields_in_turn(rt: HostRuntime) {
    let mut fields = Fields::of(b"model 2,3,10 degree 2/-5");
    let mut levels = [0; 4];
    assert!(rt; fields.word(b"model ").is_some());
    assert_eq!(rt; fields.numbers(999, &mut levels), Some(3));
    assert_eq!(rt; levels, [2, 3, 10, 0]);
    assert!(rt; fields.word(b" degree ").is_some());
    assert_eq!(rt; fields.number(999), Some(2));
    assert!(rt; fields.skip(b'/'));
    assert!(rt; !fields.skip(b'/'));
    assert_eq!(rt; fields.certificate(), Some(-5));
    assert!(rt; fields.is_empty());
}

#[test]
fn refuses_other_spellings(rt: HostRuntime) {
    assert_eq!(rt; Fields::of(b"01").number(999), None);
    assert_eq!(rt; Fields::of(b"1000").number(999), None);
    assert_eq!(rt; Fields::of(b"").number(999), None);
    assert_eq!(rt; Fields::of(b"+1").certificate(), None);
    assert_eq!(rt; Fields::of(b"-0").certificate(), None);
    assert_eq!(rt;
        Fields::of(b"79228162514264337593543950336").certificate(),
        None
    );
    assert_eq!(rt;
        Fields::of(b"-79228162514264337593543950335").certificate(),
        Some(-79228162514264337593543950335)
    );
    assert_eq!(rt; Fields::of(b"1,").small_numbers(25, &mut [0; 3]), None);
    assert_eq!(rt; Fields::of(b"25,26").small_numbers(25, &mut [0; 3]), None);
    assert_eq!(rt; Fields::of(b"1,-2,3").certificates(&mut [0; 2]), Some(2));
}
