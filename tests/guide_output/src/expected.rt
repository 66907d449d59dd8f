//! The lines of each chapter.

pub const ARRAYS: &str = r#"
numbers: [1,null,3,4]
booleans: [true,null,false,true]
strings: ["ab","",null,"c"]
binaries: ["0102","03"]
fixed_size_binaries: ["6162","6364"]
nulls: [null,null,null]
lists: [[1,null],null,[3,4]]
fixed_size_lists: [[1,null],[3,4]]
structs: [{"number":1,"text":"ab"},{"number":null,"text":""},{"number":3,"text":null},{"number":4,"text":"c"}]
struct_lists: [[{"number":1,"text":"ab"}],[{"number":null,"text":""},{"number":3,"text":null},{"number":4,"text":"c"}]]
maps: [[{"number":1,"text":"ab"},{"number":null,"text":""}],[{"number":3,"text":null},{"number":4,"text":"c"}]]
unions: [{"number":1},{"text":""},{"text":null},{"number":4}]
dictionary: ["c",null,"ab","c"]
tagged_lists: [[{"number":1,"tag":"c"},{"number":null,"tag":null}],[{"number":3,"tag":"ab"},{"number":4,"tag":"c"}]]
null_numbers: [null,null,null]
offset_past_values: OutOfSpec(OffsetPastChild)
parse_data_type("list<item: int64 not null>"): list<item: int64 not null>
parse_data_type("list<item: int46>"): invalid data type at byte 11
"#;

pub const VALUES: &str = r#"
string_at(0): Some("ab")
sum: Some(8)
scalar_at(1): null
list_at(2): [3,4]
list_window(2): [3,4]
longest_list: 2
"#;

pub const SLICES: &str = r#"
new_slice(1, 2): [null,[3,4]]
replace_validity: Ok(()), of one bit: Err(OutOfSpec(ValidityLength))
slice_in_place(1, 3), the last slot null: [2,3,null]
"#;

pub const EQUALITY: &str = r#"
are_equal: false
ends_with: true
are_equal of the last two lists: true
are_equal of tagged lists and the last one: false
ends_with of tagged lists and the last one: true
last_list: [[{"number":3,"tag":"ab"},{"number":4,"tag":"c"}]]
"#;

pub const SELECTION: &str = r#"
take_rows(3, 0, 0): [{"number":4,"text":"c"},{"number":1,"text":"ab"},{"number":1,"text":"ab"}]
filter_rows: [{"number":1,"text":"ab"},{"number":4,"text":"c"}]
concatenate_columns: [1,null,3,4,1,null,3,4]
"#;

pub const SHARING: &str = r#"
shared, length seen by the second owner: 3
boxed: [[1,null],null,[3,4]]
"#;

pub const BUILDERS: &str = r#"
numbers: [1,null,3]
booleans: [true,null]
strings: ["ab",null]
binaries: ["6162",null]
fixed_size_binaries: ["6162","6364"]
nulls: [null,null,null]
lists: [[1,2],null,[],[3,null]]
fixed_size_lists: [[1,null],null,[3,4]]
push_three: Err(InvalidArgumentError(ItemSize)), then 0 lists and 0 values
push_string: Err(InvalidArgumentError(ItemType))
freeze_any: []
load: [{"name":"Ann","age":31},{"name":"Cy","age":null}]
dictionary: ["ab","c",null,"ab"]
key_of_string("c"): Some(1)
"#;

pub const FILES: &str = r#"
file_round_trip, name: ["Ann",null]
file_round_trip, counts: [[1,null],null]
file_round_trip, paid: [7,null]
file_round_trip, name: ["Cy",null]
file_round_trip, counts: [[1,null],null]
file_round_trip, paid: [7,null]
file_round_trip, are_equal: true
stream_round_trip, are_equal: true
read_columns, name: ["Ann",null]
read_columns, paid: [7,null]
read_columns, name: ["Cy",null]
read_columns, paid: [7,null]
last_batch, name: ["Cy",null]
last_batch, counts: [[1,null],null]
last_batch, paid: [7,null]
file_error of a text: Some(Magic)
file_error of half a file: Some(Magic)
file_error of a footer with a negative length: Some(FooterLength)
file_error of a file: None
"#;

pub const STREAMS: &str = r#"
write_batches, the bytes of write_stream: true
read_first_batches(1), name: ["Ann",null]
read_first_batches(1), counts: [[1,null],null]
read_first_batches(1), paid: [7,null]
read_first_batches of half a stream: Ipc(Truncated)
"#;

pub const ON_DISK: &str = r#"
read_people, id: [1,2]
read_people, name: ["Ann","Cy"]
read_people, age: [31,null]
file_to_stream, are_equal: true
read_names_and_ages, name: ["Ann","Cy"]
read_names_and_ages, age: [31,null]
"#;

pub const JSON_LINES: &str = r#"
people_from_json: [{"name":"Ann","age":31},{"name":"Cy","age":null}]
people_from_json of {"name":"Ann","age":3000000000}: line 0 (counted from 0): field "age": number out of range
"#;
