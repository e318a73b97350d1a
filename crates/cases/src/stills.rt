// What a row shows.
use refusal::Refusal;
use rows::burst::BurstSize;
use rows::reader::PageReader;
use std::test::Fail;
use video::composition::Composition;
use video::parameters::ResetParameters;

// A word of the still of a row, by line and clock, of a composition whose lines have at most 40 clocks.
fn word(
    parameters: [u8; 4],
    page: &[u8],
    cursor: Option<(u8, u8)>,
    blink: u8,
    at: (u8, u8, u8),
) -> Result<u32, Refusal> {
    let (row, line, clock) = at;
    let composition = Composition::try_from(ResetParameters {
        first: parameters[0],
        second: parameters[1],
        third: parameters[2],
        fourth: parameters[3],
    })?;
    let mut words = [0u32; 640];
    PageReader::new(composition, BurstSize::One, page).still(row, cursor, blink, &mut words)?;
    let width = usize::from(composition.width());
    Ok(
        words
            .get(line as usize * width + clock as usize)
            .copied()
            .unwrap_or(0),
    )
}

#[test]
fn rows_behind_special_codes_are_dark(rt: HostRuntime) {
    // two columns, three rows of one line: F0 hides the rest of its row, F2 and F3 all rows below
    let parameters = [0x01, 0x02, 0x00, 0x40];
    let page = [0xF0, 0x41, 0x42, 0xF2, 0x43, 0x44];
    assert_eq!(rt; word(parameters, &page, None, 0, (1, 0, 1)), Ok(0x10000));
    assert_eq!(rt; word(parameters, &page, None, 0, (2, 0, 0)), Ok(0x42));
    assert_eq!(rt; word(parameters, &page, None, 0, (3, 0, 0)), Ok(0x10000));
    assert_eq!(rt; word(parameters, &page, None, 0, (2, 0, 2)), Ok(0x110000));
}

#[test]
fn the_seventeenth_field_character_overwrites_the_first(rt: HostRuntime) {
    let page =
        b"\x81@\x81A\x81B\x81C\x81D\x81E\x81F\x81G\x81H\x81I\x81J\x81K\x81L\x81M\x81N\x81O\x81P";
    // sixteen positions keep their characters; of seventeen the first shows the last
    assert_eq!(rt;
        word([0x0F, 0x00, 0x00, 0x00], page, None, 0, (1, 0, 0)),
        Ok(0x20040)
    );
    assert_eq!(rt;
        word([0x10, 0x00, 0x00, 0x00], page, None, 0, (1, 0, 0)),
        Ok(0x20050)
    );
    assert_eq!(rt;
        word([0x10, 0x00, 0x00, 0x00], page, None, 0, (1, 0, 1)),
        Ok(0x20041)
    );
}

#[test]
fn an_underline_of_eight_suppresses_the_first_and_the_last_line(rt: HostRuntime) {
    // ten lines, underline on line 8, and then on line 7
    let page = [0x41, 0x42];
    assert_eq!(rt;
        word([0x01, 0x00, 0x89, 0x40], &page, None, 0, (1, 0, 0)),
        Ok(0x10041)
    );
    assert_eq!(rt;
        word([0x01, 0x00, 0x89, 0x40], &page, None, 0, (1, 9, 0)),
        Ok(0x10941)
    );
    assert_eq!(rt;
        word([0x01, 0x00, 0x79, 0x40], &page, None, 0, (1, 0, 0)),
        Ok(0x00041)
    );
}

#[test]
fn the_line_count_of_either_mode(rt: HostRuntime) {
    let page = [0x41, 0x42];
    assert_eq!(rt;
        word([0x01, 0x00, 0x03, 0x40], &page, None, 0, (1, 2, 0)),
        Ok(0x241)
    );
    assert_eq!(rt;
        word([0x01, 0x00, 0x03, 0xC0], &page, None, 0, (1, 2, 0)),
        Ok(0x141)
    );
    assert_eq!(rt;
        word([0x01, 0x00, 0x03, 0xC0], &page, None, 0, (1, 0, 0)),
        Ok(0x341)
    );
}

// The first word of a row with the cursor on its first character, by the fourth parameter of Reset.
fn under_cursor(fourth: u8, blink: u8) -> Result<u32, Refusal> {
    let page = [0x41, 0x42];
    word(
        [0x01, 0x00, 0x00, fourth],
        &page,
        Some((0, 0)),
        blink,
        (1, 0, 0),
    )
}

#[test]
fn each_cursor_by_the_blink_count(rt: HostRuntime) {
    // a block inverts, an underline lights line 0; the blinking ones act while the count by 16 is below 8
    for (blink, lit) in [
        (0u8, true),
        (7, true),
        (8, false),
        (15, false),
        (16, true),
        (31, false),
    ] {
        let block = if lit { 0x8041 } else { 0x0041 };
        let underline = if lit { 0x4041 } else { 0x0041 };
        assert_eq!(rt; under_cursor(0x40, blink), Ok(block));
        assert_eq!(rt; under_cursor(0x50, blink), Ok(underline));
        assert_eq!(rt; under_cursor(0x60, blink), Ok(0x8041));
        assert_eq!(rt; under_cursor(0x70, blink), Ok(0x4041));
    }
}

#[test]
fn a_page_one_byte_short_and_a_buffer_one_word_short(rt: HostRuntime) -> Result<(), Fail> {
    let composition = Composition::try_from(ResetParameters {
        first: 0x01,
        second: 0x00,
        third: 0x00,
        fourth: 0x40,
    })?;
    let page = [0x41, 0x42];
    let mut words = [7u32; 4];
    let short = PageReader::new(composition, BurstSize::One, &page[0..1]);
    assert_eq!(rt; short.still(1, None, 0, &mut words), Err(Refusal::PageEnds));
    let reader = PageReader::new(composition, BurstSize::One, &page);
    assert_eq!(rt;
        reader.still(1, None, 0, &mut words[0..3]),
        Err(Refusal::BufferTooSmall)
    );
    assert_eq!(rt; words, [7, 7, 7, 7]);
    assert_eq!(rt; reader.still(1, None, 0, &mut words), Ok(()));
    assert_eq!(rt; words, [0x41, 0x42, 0x110000, 0x110000]);
    Ok(())
}
