// Descriptions of devices in the fields of a body. Each has an impl of its own, since each names its own fields.
ghost use Rattle.device.specs.Descriptions.{names_items, platform_items, product_items, revision_items, found_items, info_items};
ghost use Rattle.device.specs.Descriptions.{names_fields, platform_fields, product_fields, revision_fields, found_fields, info_fields};

use crate::description::{Found, Info, Names, Platform, Product, Revision};
use body::cursor::Body;
use body::fault::MessageRefusal;
use body::held::Held;

impl<'a> Held<'a> for Revision {
    ghost fields = { revision_fields };

    ghost items = { revision_items };

    fn take(body: Body<'a>) -> Result<(Revision, Body<'a>), MessageRefusal> {
        let ((user_id, counter), body) = Held::take(body)?;
        let revision = Revision { user_id, counter };
        Ok((revision, body))
    }
}

impl<'a> Held<'a> for Names<'a> {
    ghost fields = { names_fields };

    ghost items = { names_items };

    fn take(body: Body<'a>) -> Result<(Names<'a>, Body<'a>), MessageRefusal> {
        let ((name, (manufacturer, (model, unique_id))), body) = Held::take(body)?;
        let names = Names {
            name,
            manufacturer,
            model,
            unique_id,
        };
        Ok((names, body))
    }
}

impl<'a> Held<'a> for Platform {
    ghost fields = { platform_fields };

    ghost items = { platform_items };

    fn take(body: Body<'a>) -> Result<(Platform, Body<'a>), MessageRefusal> {
        let ((class, (processor, (system, flags))), body) = Held::take(body)?;
        let platform = Platform {
            class,
            processor,
            system,
            flags,
        };
        Ok((platform, body))
    }
}

impl<'a> Held<'a> for Product {
    ghost fields = { product_fields };

    ghost items = { product_items };

    fn take(body: Body<'a>) -> Result<(Product, Body<'a>), MessageRefusal> {
        let ((profile, (version, (control_channels, feedback_channels))), body) = Held::take(body)?;
        let product = Product {
            profile,
            version,
            control_channels,
            feedback_channels,
        };
        Ok((product, body))
    }
}

impl<'a> Held<'a> for Found<'a> {
    ghost fields = { found_fields };

    ghost items = { found_items };

    fn take(body: Body<'a>) -> Result<(Found<'a>, Body<'a>), MessageRefusal> {
        let ((group, (unique_id, (event, (flags, revision)))), body) = Held::take(body)?;
        let found = Found {
            group,
            unique_id,
            event,
            flags,
            revision,
        };
        Ok((found, body))
    }
}

impl<'a> Held<'a> for Info<'a> {
    ghost fields = { info_fields };

    ghost items = { info_items };

    fn take(body: Body<'a>) -> Result<(Info<'a>, Body<'a>), MessageRefusal> {
        let ((group, (names, (platform, (product, revision)))), body) = Held::take(body)?;
        let info = Info {
            group,
            names,
            platform,
            product,
            revision,
        };
        Ok((info, body))
    }
}
