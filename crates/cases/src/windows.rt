// Which bytes a row takes.
use refusal::Refusal;
use rows::burst::BurstSize;
use rows::reader::PageReader;
use video::composition::Composition;
use video::parameters::ResetParameters;

// The place and the number of bytes of a row's window.
fn window(
    columns: u8,
    fourth: u8,
    burst: BurstSize,
    page: &[u8],
    row: u8,
) -> Result<(usize, usize), Refusal> {
    let composition = Composition::try_from(ResetParameters {
        first: columns,
        second: 0x03,
        third: 0x00,
        fourth,
    })?;
    let window = PageReader::new(composition, burst, page).window(row)?;
    Ok((window.place, window.bytes.len()))
}

#[test]
fn a_stop_code_takes_one_byte_more_unless_it_is_its_bursts_last(rt: HostRuntime) {
    let page = [0x41, 0xF1, 0x42, 0x43, 0x44, 0x45, 0x46];
    assert_eq!(rt; window(3, 0x40, BurstSize::Four, &page, 1), Ok((0, 3)));
    assert_eq!(rt; window(3, 0x40, BurstSize::Two, &page, 1), Ok((0, 2)));
    assert_eq!(rt; window(3, 0x40, BurstSize::Four, &page, 2), Ok((3, 4)));
}

#[test]
fn a_transparent_code_takes_its_character_whatever_it_is(rt: HostRuntime) {
    let page = [0x81, 0x41, 0x90, 0xF0];
    assert_eq!(rt; window(1, 0x00, BurstSize::One, &page, 1), Ok((0, 4)));
}

#[test]
fn no_row_below_a_stop_of_the_screen_takes_bytes(rt: HostRuntime) {
    let page = [0x41, 0xF3, 0x42];
    assert_eq!(rt; window(3, 0x40, BurstSize::Four, &page, 2), Ok((3, 0)));
    // the byte that is dropped is missing, so the first row does not end
    assert_eq!(rt;
        window(3, 0x40, BurstSize::Four, &page[0..2], 2),
        Err(Refusal::PageEnds)
    );
}

#[test]
fn spaced_rows_and_rows_that_are_not_there(rt: HostRuntime) {
    let page = [0x41, 0x42, 0x43, 0x44];
    assert_eq!(rt; window(0x81, 0x40, BurstSize::One, &page, 3), Ok((2, 2)));
    for row in [0u8, 2, 4, 5] {
        assert_eq!(rt;
            window(0x81, 0x40, BurstSize::One, &page, row),
            Err(Refusal::NoSuchRow)
        );
    }
    assert_eq!(rt;
        window(0x81, 0x40, BurstSize::One, &page[0..3], 3),
        Err(Refusal::PageEnds)
    );
}
