// A page, listed as a request asks for it.
use crate::failure::Failure;
use arguments::request::Request;
use sheet::screen::Screen;
use std::fs;

// A page, the screen that shows it, and what is asked of them.
#[derive(Drop)]
pub(crate) struct Viewing<'a> {
    pub(crate) request: Request<'a>,
    pub(crate) screen: Screen,
    pub(crate) page: &'a [u8],
}

pub(crate) fn show(rt: &HostRuntime, request: Request) -> Result<(), Failure> {
    let page = fs::read(rt, request.page).map_err(Failure::Unread)?;
    let viewing = Viewing {
        request,
        screen: Screen::programmed(request.parameters, request.cursor, request.start)?,
        page: page.as_slice(),
    };
    match request.playing {
        None => viewing.stills(rt),
        Some(playing) => viewing.frames(rt, playing),
    }
}
