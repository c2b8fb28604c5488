ghost use Rattle.std.specs.Prelude.{◌≡◌, ◌+◌, ◌≤◌, length};
ghost use Rattle.std.specs.List.{filter, list_any};
ghost use Rattle.key_tables.specs.Build.{is_key, is_role};
ghost use Rattle.key_tables.specs.Lanes.{is_any};

use crate::{
    BuildFault, Channel, Lane, Level, Role, Row, RowIndex, RowKey, RowList, RowValue, Steps,
    Tables, TablesFault, lanes, read_tables,
};
use knx_base::{Cause, GroupAddr, IndAddr};
use std::alloc::Global;
use std::cmp::Ordering;
use std::marker::Brand;
use std::sync::ledger::{Blank, Ledger};
use std::test::Fail;

const KEY: [u8; 16] = [0, 1, 2, 3, 4, 5, 6, 7, 8, 9, 10, 11, 12, 13, 14, 15];

const OTHER_KEY: [u8; 16] = [0xff; 16];

const SENDER: IndAddr = IndAddr(0x1107);

const DEVICE: IndAddr = IndAddr(0x1109);

const TOOL: IndAddr = IndAddr(0x1101);

const LAMP: Channel = Channel::Group(GroupAddr(0x0a03));

const BLIND: Channel = Channel::Group(GroupAddr(0x0a04));

const TEXT: &[u8] = b"# an installation
group 1/2/3 000102030405060708090a0b0c0d0e0f conf\r
role\t1/2/3 any observe

group 2564 FFFFFFFFFFFFFFFFFFFFFFFFFFFFFFFF auth
role 1/2/3 1.1.7 command
tool 1.1.9 ffffffffffffffffffffffffffffffff
role tool:1.1.9 1.1.1 manage";

fn tables(alloc: Global, text: &[u8]) -> Result<Tables, Fail> {
    Ok(Tables::from_rows(alloc, read_tables(alloc, text)?)?)
}

#[test]
fn an_installation_is_read_and_asked(rt: HostRuntime) -> Result<(), Fail> {
    let tables = tables(rt.alloc(), TEXT)?;
    assert_eq!(rt; tables.key(LAMP), Some(KEY));
    assert_eq!(rt; tables.key(Channel::Tool(DEVICE)), Some(OTHER_KEY));
    assert_eq!(rt; tables.key(Channel::Tool(SENDER)), None);
    assert_eq!(rt; tables.level(LAMP), Some(Level::Conf));
    assert_eq!(rt; tables.level(BLIND), Some(Level::Auth));
    assert_eq!(rt; tables.level(Channel::Tool(DEVICE)), Some(Level::Conf));
    for (channel, sender, role) in [
        (LAMP, SENDER, Some(Role::Command)),
        (LAMP, DEVICE, Some(Role::Observe)),
        (BLIND, SENDER, None),
        (Channel::Tool(DEVICE), TOOL, Some(Role::Manage)),
        (Channel::Tool(DEVICE), DEVICE, Some(Role::Observe)),
        (Channel::Tool(DEVICE), SENDER, None),
    ] {
        assert_eq!(rt; tables.role(channel, sender), role);
    }
    Ok(())
}

#[test]
fn a_frame_has_a_channel_by_its_destination_and_tool_access(rt: HostRuntime) -> Result<(), Fail> {
    let tables = tables(rt.alloc(), TEXT)?;
    for (group, tool, source, destination, channel) in [
        (true, false, SENDER, 0x0a03, Some(LAMP)),
        (true, true, SENDER, 0x0a03, None),
        (true, false, SENDER, 0x0a05, None),
        (false, true, TOOL, 0x1109, Some(Channel::Tool(DEVICE))),
        (false, true, DEVICE, 0x1101, Some(Channel::Tool(DEVICE))),
        (false, true, TOOL, 0x1107, None),
        (false, false, TOOL, 0x1109, None),
    ] {
        assert_eq!(rt;
            tables.channel_of(group, tool, source, destination),
            channel
        );
    }
    assert_eq!(rt; LAMP.lane(SENDER), Lane::Run(SENDER));
    assert_eq!(rt; Channel::Tool(DEVICE).lane(TOOL), Lane::Tool(DEVICE, TOOL));
    assert_eq!(rt; Role::Command.is_enough_for(Role::Observe), true);
    assert_eq!(rt; Role::Command.is_enough_for(Role::Manage), false);
    Ok(())
}

#[test]
fn an_expanded_key_enciphers_as_the_standard_says(rt: HostRuntime) -> Result<(), Fail> {
    let tables = tables(rt.alloc(), TEXT)?;
    let key = tables.expanded_key(LAMP).ok_or("no key")?;
    let mut block = *b"\x00\x11\x22\x33\x44\x55\x66\x77\x88\x99\xaa\xbb\xcc\xdd\xee\xff";
    key.encrypt_block(&mut block);
    assert_eq!(rt;
        &block,
        b"\x69\xc4\xe0\xd8\x6a\x7b\x04\x30\xd8\xcd\xb7\x80\x70\xb4\xc5\x5a"
    );
    Ok(())
}

const fn lamp_key(key: [u8; 16]) -> Row {
    Row::Group {
        address: GroupAddr(0x0a03),
        key,
        level: Level::Conf,
    }
}

const fn tool_key(device: IndAddr, key: [u8; 16]) -> Row {
    Row::Tool { device, key }
}

const fn role_on(channel: Channel, sender: Option<IndAddr>, role: Role) -> Row {
    Row::Role {
        channel,
        sender,
        role,
    }
}

// One displaced row and one that is not, of keys and of roles.
#[test]
fn the_rows_over_displace_those_under(rt: HostRuntime) -> Result<(), Fail> {
    let over = [role_on(LAMP, Some(SENDER), Role::Command), lamp_key(KEY)];
    let under = [
        role_on(BLIND, Some(SENDER), Role::Manage),
        lamp_key(OTHER_KEY),
        role_on(LAMP, Some(DEVICE), Role::Manage),
        tool_key(DEVICE, OTHER_KEY),
    ];
    let tables = Tables::merge(rt.alloc(), &over, &under)?;
    assert_eq!(rt; tables.key(LAMP), Some(KEY));
    assert_eq!(rt; tables.key(Channel::Tool(DEVICE)), Some(OTHER_KEY));
    assert_eq!(rt; tables.role(LAMP, SENDER), Some(Role::Command));
    assert_eq!(rt; tables.role(LAMP, DEVICE), None);
    assert_eq!(rt; tables.role(BLIND, SENDER), Some(Role::Manage));
    Ok(())
}

#[test]
fn the_place_of_a_fault_counts_the_merged_rows(rt: HostRuntime) {
    let over = [lamp_key(KEY)];
    let under = [
        lamp_key(KEY),
        tool_key(DEVICE, KEY),
        role_on(LAMP, None, Role::Observe),
        tool_key(DEVICE, OTHER_KEY),
    ];
    assert_eq!(rt;
        fault_of(Tables::merge(rt.alloc(), &over, &under)),
        Some(BuildFault::Twice(3))
    );
    assert_eq!(rt;
        fault_of(Tables::build(rt.alloc(), &under)),
        Some(BuildFault::Twice(3))
    );
}

#[test]
fn there_are_as_many_keys_as_may_be_and_no_more(rt: HostRuntime) -> Result<(), Fail> {
    let mut rows = Vec::new(rt.alloc());
    for device in 0..4096 {
        rows.push(tool_key(IndAddr(device), KEY))?;
    }
    assert_eq!(rt; fault_of(Tables::build(rt.alloc(), &rows)), None);
    rows.push(tool_key(IndAddr(4096), KEY))?;
    assert_eq!(rt;
        fault_of(Tables::build(rt.alloc(), &rows)),
        Some(BuildFault::TooMany(4096))
    );
    Ok(())
}

#[test]
fn there_are_as_many_roles_as_may_be_and_no_more(rt: HostRuntime) -> Result<(), Fail> {
    let mut rows = Vec::new(rt.alloc());
    for sender in 0..16384 {
        rows.push(role_on(LAMP, Some(IndAddr(sender)), Role::Observe))?;
    }
    assert_eq!(rt; fault_of(Tables::build(rt.alloc(), &rows)), None);
    rows.push(role_on(LAMP, None, Role::Observe))?;
    assert_eq!(rt;
        fault_of(Tables::build(rt.alloc(), &rows)),
        Some(BuildFault::TooMany(16384))
    );
    Ok(())
}

// The key of a device in full tables: its address, and zeros.
fn key_of_device(device: u16) -> [u8; 16] {
    let [high, low] = device.to_be_bytes();
    let mut key = [0; 16];
    key[0] = high;
    key[1] = low;
    key
}

// The rows stand from the last to the first, so that building has to turn them round.
fn full_rows(alloc: Global) -> Result<Vec<Row>, Fail> {
    let mut rows = Vec::new(alloc);
    for place in 0..4096 {
        let device = 4095 - place;
        rows.push(tool_key(IndAddr(device), key_of_device(device)))?;
    }
    for place in 0..16384 {
        let sender = 16383 - place;
        rows.push(role_on(
            Channel::Tool(IndAddr(sender & 127)),
            Some(IndAddr(sender >> 7)),
            Role::Manage,
        ))?;
    }
    Ok(rows)
}

#[test]
fn each_row_of_full_tables_is_found(rt: HostRuntime) -> Result<(), Fail> {
    let tables = Tables::build(rt.alloc(), &full_rows(rt.alloc())?)?;
    for device in 0..4096 {
        let channel = Channel::Tool(IndAddr(device));
        assert_eq!(rt; tables.key(channel), Some(key_of_device(device)));
    }
    for sender in 0..16384u16 {
        let channel = Channel::Tool(IndAddr(sender & 127));
        assert_eq!(rt;
            tables.role(channel, IndAddr(sender >> 7)),
            Some(Role::Manage)
        );
    }
    assert_eq!(rt; tables.key(Channel::Tool(IndAddr(4096))), None);
    assert_eq!(rt;
        tables.role(Channel::Tool(IndAddr(127)), IndAddr(128)),
        None
    );
    Ok(())
}

// The last row says again what another says: it is refused at its place, whether it is built or merged.
#[test]
fn a_row_that_says_again_is_found_in_full_tables(rt: HostRuntime) -> Result<(), Fail> {
    let full = full_rows(rt.alloc())?;
    let mut rows = full_rows(rt.alloc())?;
    rows.push(role_on(
        Channel::Tool(IndAddr(127)),
        Some(IndAddr(127)),
        Role::Observe,
    ))?;
    assert_eq!(rt;
        fault_of(Tables::build(rt.alloc(), &rows)),
        Some(BuildFault::Twice(20480))
    );
    assert_eq!(rt;
        fault_of(Tables::merge(rt.alloc(), &[], &rows)),
        Some(BuildFault::Twice(20480))
    );
    assert_eq!(rt; fault_of(Tables::merge(rt.alloc(), &full, &rows)), None);
    Ok(())
}

// How the first three rows stand to a key.
fn standing<L: Ledger>(index: &RowIndex, wanted: RowKey, blank: Blank) -> [Ordering; 3]
    requires name { blank.name ≡ L.name }
    requires parts { blank.parts ≡ L.parts }
    requires one { blank.parts ≡ 1 }
    requires three { length index.now ≡ 3 }
{
    let mut steps = Steps::<L>::new(blank);
    [
        index.compare_at(0, &wanted, &mut steps),
        index.compare_at(1, &wanted, &mut steps),
        index.compare_at(2, &wanted, &mut steps),
    ]
}

#[test]
fn rows_stand_by_their_channel_and_sender(rt: HostRuntime) -> Result<(), Fail> {
    let rows = read_tables(rt.alloc(), TEXT)?;
    let keys = RowIndex::of_keys(rt.alloc(), &rows)?;
    let roles = RowIndex::of_roles(rt.alloc(), &rows)?;
    if keys.len() != 3 || roles.len() != 3 {
        return Err(Fail::from("other rows"));
    }
    assert_eq!(rt;
        standing::<Brand>(&keys, RowKey::Key(BLIND), Blank::new(1)),
        [Ordering::Less, Ordering::Equal, Ordering::Greater]
    );
    assert_eq!(rt;
        standing::<Brand>(&roles, RowKey::Role(LAMP, Some(SENDER)), Blank::new(1)),
        [Ordering::Less, Ordering::Equal, Ordering::Greater]
    );
    assert_eq!(rt; keys.value_at(2) == RowValue::Key(OTHER_KEY, None), true);
    assert_eq!(rt; roles.value_at(0) == RowValue::Role(Role::Observe), true);
    Ok(())
}

// Where there is one key row, a key is found in one step, and so is that there is none.
fn key_in_a_step<L: Ledger>(
    tables: &Tables,
    channel: Channel,
    steps: &mut Steps<L>,
) -> Option<[u8; 16]>
    requires { length (filter is_key tables.now) ≡ 1 }
    ensures { steps.new ≤ steps.old + 1 }
{
    tables.key_counted(channel, steps)
}

// Where there is one role row, it is asked for the sender and for any.
fn role_in_two_steps<L: Ledger>(
    tables: &Tables,
    channel: Channel,
    sender: IndAddr,
    steps: &mut Steps<L>,
) -> Option<Role>
    requires { length (filter is_role tables.now) ≡ 1 }
    ensures { steps.new ≤ steps.old + 2 }
{
    tables.role_counted(channel, sender, steps)
}

fn asked_in_few_steps<L: Ledger>(
    tables: &Tables,
    blank: Blank,
) -> ([Option<[u8; 16]>; 2], [Option<Role>; 2])
    requires name { blank.name ≡ L.name }
    requires parts { blank.parts ≡ L.parts }
    requires one { blank.parts ≡ 1 }
    requires one_key { length (filter is_key tables.now) ≡ 1 }
    requires one_role { length (filter is_role tables.now) ≡ 1 }
{
    let mut steps = Steps::<L>::new(blank);
    let keys = [
        key_in_a_step(tables, LAMP, &mut steps),
        key_in_a_step(tables, BLIND, &mut steps),
    ];
    let roles = [
        role_in_two_steps(tables, LAMP, SENDER, &mut steps),
        role_in_two_steps(tables, LAMP, DEVICE, &mut steps),
    ];
    (keys, roles)
}

#[test]
fn one_group_and_one_role_are_found_in_few_steps(rt: HostRuntime) -> Result<(), Fail> {
    let rows = [
        Row::Group {
            address: GroupAddr(0x0a03),
            key: KEY,
            level: Level::Conf,
        },
        Row::Role {
            channel: LAMP,
            sender: Some(SENDER),
            role: Role::Command,
        },
    ];
    let tables = Tables::build(rt.alloc(), &rows)?;
    assert_eq!(rt;
        asked_in_few_steps::<Brand>(&tables, Blank::new(1)),
        ([Some(KEY), None], [Some(Role::Command), None])
    );
    Ok(())
}

#[test]
fn no_key_is_shown_for_debugging(rt: HostRuntime) -> Result<(), Fail> {
    let shown = format!(in rt.alloc(); "{:?}", tool_key(IndAddr(7), KEY))?;
    assert_eq!(rt; shown.as_str(), "Tool { device: IndAddr(7), .. }");
    let group = Row::Group {
        address: GroupAddr(9),
        key: KEY,
        level: Level::Conf,
    };
    let shown = format!(in rt.alloc(); "{:?}", group)?;
    assert_eq!(rt;
        shown.as_str(),
        "Group { address: GroupAddr(9), level: Conf, .. }"
    );
    Ok(())
}

fn fault_of(tables: Result<Tables, BuildFault>) -> Option<BuildFault> {
    match tables {
        Ok(_) => None,
        Err(fault) => Some(fault),
    }
}

fn text_fault(rows: Result<RowList, TablesFault>) -> Option<TablesFault> {
    match rows {
        Ok(_) => None,
        Err(fault) => Some(fault),
    }
}

#[test]
fn the_first_bad_word_is_the_cause(rt: HostRuntime) {
    for (line, cause) in [
        (b"groups 1/2/3".as_slice(), Cause::Words),
        (b"group 0 0 conf auth", Cause::Words),
        (b"tool 1.1.9", Cause::Words),
        (b"group 0/0/0 0 none", Cause::Address),
        (
            b"group 1/2/3 000102030405060708090a0b0c0d0e none",
            Cause::Key,
        ),
        (
            b"group 1/2/3 000102030405060708090a0b0c0d0e0f Conf",
            Cause::Level,
        ),
        (b"tool 1.16.9 0", Cause::Address),
        (
            b"tool 1.1.9 0001020304050607 08090a0b0c0d0e0f",
            Cause::Words,
        ),
        (b"tool 0.0.0 000102030405060708090a0b0c0d0e0g", Cause::Key),
        (b"role 0 1 any", Cause::Address),
        (b"role tool:1/2/3 any manage", Cause::Address),
        (b"role 1/2/3 Any none", Cause::Address),
        (b"role tool:0.0.0 0.0.0 none", Cause::Role),
        (&[b' '; 1025], Cause::Long),
        (b"role 1/2/3 any observe\r", Cause::Words),
    ] {
        assert_eq!(rt;
            text_fault(read_tables(rt.alloc(), line)),
            Some(TablesFault::Line(1, cause))
        );
    }
}

#[test]
fn a_second_row_of_the_group_is_refused_at_its_line(rt: HostRuntime) {
    let text = b"group 1/2/3 000102030405060708090a0b0c0d0e0f conf
group 1/515 ffffffffffffffffffffffffffffffff auth
no line";
    assert_eq!(rt;
        text_fault(read_tables(rt.alloc(), text)),
        Some(TablesFault::Twice(2))
    );
}

#[test]
fn one_key_too_many_is_refused_at_its_line(rt: HostRuntime) -> Result<(), Fail> {
    let mut text = String::new(rt.alloc());
    for device in 0..4097u16 {
        write!(
            text,
            "tool {}.{}.{} 000102030405060708090a0b0c0d0e0f\n",
            device >> 12,
            device >> 8 & 15,
            device & 255
        )?;
    }
    assert_eq!(rt;
        text_fault(read_tables(rt.alloc(), text.as_bytes())),
        Some(TablesFault::TooMany(4097))
    );
    Ok(())
}

// Four devices, two groups and four tool keys: each device may command on both groups but the last, which may observe
// on the first; the first device manages the others, and they may observe on its channel.
const FOUR_DEVICES: &[u8] = b"group 1/0/1 11111111111111111111111111111111 conf
group 1/0/2 22222222222222222222222222222222 auth
tool 1.1.1 31313131313131313131313131313131
tool 1.1.2 32323232323232323232323232323232
tool 1.1.3 33333333333333333333333333333333
tool 1.1.4 34343434343434343434343434343434
role 1/0/1 1.1.1 command
role 1/0/1 1.1.2 command
role 1/0/1 1.1.3 command
role 1/0/1 1.1.4 observe
role 1/0/2 1.1.1 command
role 1/0/2 1.1.2 command
role 1/0/2 1.1.3 command
role 1/0/2 1.1.4 command
role tool:1.1.1 1.1.2 observe
role tool:1.1.1 1.1.3 observe
role tool:1.1.1 1.1.4 observe
role tool:1.1.2 1.1.1 manage
role tool:1.1.3 1.1.1 manage
role tool:1.1.4 1.1.1 manage";

const D1: IndAddr = IndAddr(0x1101);

const D2: IndAddr = IndAddr(0x1102);

const D3: IndAddr = IndAddr(0x1103);

const D4: IndAddr = IndAddr(0x1104);

const GROUPS: [GroupAddr; 2] = [GroupAddr(0x0801), GroupAddr(0x0802)];

// Whether a role row is of any sender.
fn has_any(rows: &[Row]) -> bool
    ensures { result ≡ list_any is_any rows.now }
{
    rows.iter().any(is_any)
}

fn is_any(row: &Row) -> bool
    ensures { result ≡ is_any row.now }
{
    matches!(row, Row::Role { sender: None, .. })
}

#[test]
fn a_device_has_its_lanes_in_their_order(rt: HostRuntime) -> Result<(), Fail> {
    let rows = read_tables(rt.alloc(), FOUR_DEVICES)?;
    let rows = rows.as_slice();
    if has_any(rows) {
        return Err(Fail::from("rows that name every sender"));
    }
    let first = lanes(rt.alloc(), rows, D1, &GROUPS)?;
    assert_eq!(rt;
        first.as_slice(),
        [
            Lane::Run(D1),
            Lane::Run(D2),
            Lane::Run(D3),
            Lane::Run(D4),
            Lane::Tool(D1, D1),
            Lane::Tool(D1, D2),
            Lane::Tool(D1, D3),
            Lane::Tool(D1, D4),
        ]
        .as_slice()
    );
    for device in [D2, D3, D4] {
        let own = lanes(rt.alloc(), rows, device, &GROUPS)?;
        assert_eq!(rt;
            own.as_slice(),
            [
                Lane::Run(D1),
                Lane::Run(D2),
                Lane::Run(D3),
                Lane::Run(D4),
                Lane::Tool(device, D1),
                Lane::Tool(device, device),
            ]
            .as_slice()
        );
    }
    let third = lanes(rt.alloc(), rows, D3, &GROUPS[1..])?;
    assert_eq!(rt; third.place(Lane::Tool(D3, D3)), Some(5));
    assert_eq!(rt; third.place(Lane::Tool(D3, D2)), None);
    Ok(())
}

// The rows stand out of order, one device has no key, and another no role for this one.
#[test]
fn without_a_tool_key_it_has_one_for_each_device_that_it_may_send_to(
    rt: HostRuntime,
) -> Result<(), Fail> {
    let rows = [
        role_on(Channel::Tool(D4), Some(D1), Role::Observe),
        role_on(Channel::Tool(D3), Some(D1), Role::Manage),
        role_on(Channel::Tool(D2), Some(D1), Role::Manage),
        tool_key(D4, KEY),
        tool_key(D2, KEY),
        role_on(BLIND, Some(SENDER), Role::Observe),
        role_on(LAMP, Some(SENDER), Role::Command),
    ];
    if has_any(&rows) {
        return Err(Fail::from("rows that name every sender"));
    }
    let lanes = lanes(rt.alloc(), &rows, D1, &[GroupAddr(0x0a03)])?;
    assert_eq!(rt;
        lanes.as_slice(),
        [Lane::Run(SENDER), Lane::Tool(D2, D2), Lane::Tool(D4, D4)].as_slice()
    );
    Ok(())
}
