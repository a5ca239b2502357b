//! Which lines have a vector.
use super::*;
use std::test::Fail;

#[test]
fn values_lines_and_others(rt: HostRuntime) -> Result<(), Fail> {
    let model = Model::new(&[2, 2, 2], 3)?;
    let lines: [(&[u8], Option<[i128; 3]>); 20] = [
        (
            br#"{"values":{"levels":[["0","3"],["0","2"],["0","1"]],"vector":["3","2","1"],"weights":[5000,3333,1667]}}"#,
            Some([3, 2, 1]),
        ),
        (
            b" { \"more\" : 1 ,\t\"values\":{\"vector\":[\"1\",\"1\",\"79228162514264337593543950335\"]}}\r",
            Some([1, 1, 79228162514264337593543950335]),
        ),
        (
            br#"{"values":{"vector":1,"vector":["\u0031","2","3"]}}"#,
            Some([1, 2, 3]),
        ),
        // another number of items
        (br#"{"values":{"vector":["1","2"]}}"#, None),
        (br#"{"values":{"vector":["1","2","3","4"]}}"#, None),
        (br#"{"values":{"vector":[]}}"#, None),
        // items of other types and spellings, and numbers that aren't positive or too large
        (br#"{"values":{"vector":[1,2,3]}}"#, None),
        (br#"{"values":{"vector":["1","2",null]}}"#, None),
        (br#"{"values":{"vector":["1","2","0"]}}"#, None),
        (br#"{"values":{"vector":["1","2","-1"]}}"#, None),
        (br#"{"values":{"vector":["1","2","+1"]}}"#, None),
        (br#"{"values":{"vector":["1","2","01"]}}"#, None),
        (br#"{"values":{"vector":["1","2","1 "]}}"#, None),
        (br#"{"values":{"vector":["1","2",""]}}"#, None),
        (
            br#"{"values":{"vector":["1","2","79228162514264337593543950336"]}}"#,
            None,
        ),
        // other members
        (br#"{"vector":["1","2","3"]}"#, None),
        (br#"{"values":["1","2","3"]}"#, None),
        (br#"{"values":{"vector":{"1":"1"}}}"#, None),
        (br#"{"incomplete":{"left":[2,1,0],"right":[1,2,0]}}"#, None),
        (b"", None),
    ];
    for (line, numbers) in lines {
        match (read_vector(rt.alloc(), line, &model)?, numbers) {
            (Some(vector), Some(numbers)) => assert!(rt; vector.as_slice() == numbers.as_slice()),
            (found, numbers) => { assert!(rt; found.is_none() && numbers.is_none(), "{line:?}") }
        }
    }
    Ok(())
}
